// The run of a process.
ghost use Rattle.std.specs.Prelude.{◌≡◌, ◌≤◌, ⊤, ℕ, List, Option, None};
ghost use Rattle.std.specs.Process.{exit_status};
ghost use Rattle.diagnostics.specs.Helping.{help_of};
ghost use Rattle.vcl_library.specs.Functions.{std_functions};
ghost use Rattle.varn_audit.specs.Run.{Ends as EndsAudit};
ghost use Rattle.varn_program.specs.Run.{Ends};
ghost use Rattle.varn_serve.specs.Run.{found_full, is_full_status};
ghost use Rattle.varn_command.specs.Asking.{Does};
ghost use Rattle.varn_command.specs.Outcomes.{code_of};
ghost use Rattle.varn_command.specs.declared.outcome.Outcome.{Outcome as Came};

use crate::explaining::{explain, explain_unwritten, explain_wordless};
use crate::outcome::Status;
use crate::running::{command_of, run};
use command_line::CommandName;
use crew::Sign;
use diagnostics::Help;
use std::alloc::Global;
use std::env::{self, VarError};
use std::net::{Net, TcpListener, TcpStream};
use std::process::ExitCode;
use std::random::RandomSource;
use std::rt::{Clock, Files};
use std::sync::{Arc, Wait};
use std::thread::Threads;
use system::{
    ConsoleWorld, EndSign, StreamSink, StreamSource, SystemWorld, WordsError, read_words,
};
use units::Text;
use world::OpenGate;

/// Where a server listens: at all addresses of the machine.
const ADDRESS: [u8; 4] = [0, 0, 0, 0];

/// The variable of the environment that names the file whose coming ends a server's run.
const STOP_VARIABLE: &str = "VARN_STOP";

/// The variable that names the file which gets a line of each request.
const LOG_VARIABLE: &str = "VARN_ACCESS_LOG";

/// The word that bounds the number of connections: each link is then a whole connection.
const CONNS_WORD: &[u8] = b"--conns";

/// What a process was started with: its words, the file whose coming ends a run, and the one for a line of each request, if they are
/// named; and what tells a console that a run is over, with where the console sees that.
#[derive(Drop)]
pub struct Start {
    pub words: Vec<Text>,
    pub stop_file: Option<Text>,
    pub log_file: Option<Text>,
    pub sign: ConsoleSign,
    pub end: Arc<EndSign, Global>,
}

// Writes the help on standard output.
fn print(rt: &HostRuntime, help: Help) -> Status {
    match println!(rt; "{help}") {
        Ok(()) => Status::Done,
        Err(_) => {
            explain_unwritten(rt);
            Status::WriteFault
        }
    }
}

// The file that a variable of the environment names, if it is there.
fn named_file(rt: &HostRuntime, variable: &str) -> Result<Option<Text>, WordsError> {
    match env::var(rt, variable) {
        Ok(name) => Ok(Some(Text::of(rt.alloc(), name.as_bytes())?)),
        Err(VarError::NotPresent) => Ok(None),
        Err(VarError::NotUnicode) => Err(WordsError::Unreadable),
        Err(VarError::OutOfMemory) => Err(WordsError::NoMemory),
    }
}

// Whether the words say how many connections are served.
fn bounds_connections(words: &[Text]) -> bool {
    words.iter().any(|word| word.bytes() == CONNS_WORD)
}

// Whether the words are those of a server.
fn ask_for_server(words: &[Text]) -> bool {
    matches!(command_of(words), Some((CommandName::Serve, _)))
}

/// Tells a console that the workers have left.
#[derive(Drop)]
pub struct ConsoleSign {
    end: Arc<EndSign, Global>,
}

impl Sign for ConsoleSign {
    fn raise(&self) {
        self.end.raise();
    }
}

impl Start {
    /// What this process was started with.
    pub fn read(rt: &HostRuntime) -> Result<Start, WordsError> {
        let end = Arc::new(rt.alloc(), EndSign::new()).map_err(|_| WordsError::NoMemory)?;
        let sign = ConsoleSign {
            end: Arc::try_clone(&end)?,
        };
        Ok(Start {
            words: read_words(rt)?,
            stop_file: named_file(rt, STOP_VARIABLE)?,
            log_file: named_file(rt, LOG_VARIABLE)?,
            sign,
            end,
        })
    }
}

/// Says why it isn't known what the process was started with, and gives what it ends with: words that aren't text are no words of
/// a command.
pub fn refuse_start(rt: &HostRuntime, error: WordsError) -> ExitCode {
    explain_wordless(rt, error);
    let status = match error {
        WordsError::Unreadable => Status::Words,
        WordsError::NoMemory => Status::NoMemory,
    };
    ExitCode::from(status.code())
}

/// Runs what the words say over the process's standard streams and the system's outside, says on standard error what kept it from
/// being whole, and gives what the process ends with. Words that ask for help are answered on standard output.
///
/// Its bounds are those of `Outside` written out: a call from `main` is checked only where the types of the sockets stand in its own
/// bounds.
pub fn perform<R>(rt: &HostRuntime, outside: &R, start: Start) -> ExitCode
where
    R: Net<Listener = TcpListener, Stream = TcpStream>
        + Files
        + AllocGlobal
        + Clock
        + Eprint
        + RandomSource
        + Threads
        + Wait
        + Sync
        + Copy
        + Drop
        + Send
        + 'static,
    <R as Files>::File: Send,
    <R as Files>::Dir: Send,
    ensures { help_of start.words.items ≡ None → (outcome : Came) × Does (record {
      replays = λ came. (left0 left1 held0 held1 : Option (List ℕ)) × Ends std_functions start.words.items left0 left1 held0 held1 came;
      loads = λ load came. ⊤;
      serves = λ order came. (came.connections ≤ order.conns) × (is_full_status came.status ≡ found_full came);
      audits = λ came. (left0 left1 held0 held1 : Option (List ℕ)) × EndsAudit left0 left1 held0 held1 came;
      nothing = ⊤;
    }) start.words.items outcome × (exit_status result ≡ code_of outcome.status) }
{
    let Start {
        words,
        stop_file,
        log_file,
        sign,
        end,
    } = start;
    if let Some(help) = Help::of(words.as_slice()) {
        return ExitCode::from(print(rt, help).code());
    }
    let mut world = SystemWorld::new(*outside, ADDRESS);
    world.stop_file = stop_file;
    world.log_file = log_file;
    world.gives_stretches = !bounds_connections(words.as_slice());
    if ask_for_server(words.as_slice()) {
        // Where its threads can't begin no port is had, which the run says.
        let _ = world.start();
    }
    let mut operators = ConsoleWorld::new(*outside, end);
    let mut source = StreamSource::new(rt.stdin());
    let mut sink = StreamSink::new(rt.stdout());
    let outcome = run(
        outside,
        rt.alloc(),
        words.as_slice(),
        &mut world,
        &mut operators,
        &OpenGate,
        &sign,
        &mut source,
        &mut sink,
    );
    let code = outcome.status.code();
    explain(rt, words.as_slice(), &mut world, outcome);
    ExitCode::from(code)
}
