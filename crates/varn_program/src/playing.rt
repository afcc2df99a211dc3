// A session that is played, once it is read.
ghost use Rattle.std.specs.Prelude.{◌≡◌, false, [], IfOk, IfErr, OnErr};
ghost use Rattle.replay.specs.Build.{HasClients};
ghost use Rattle.session_text.specs.declared.session.Session.{Session as TheSession};
ghost use Rattle.session_text.specs.Sessions.{IsSession};
ghost use Rattle.vcl_library.specs.Functions.{std_functions};
ghost use Rattle.varn_program.specs.Run.{HasEnded, IsUnplayed, opening_boot, outcome_of, stopped as one_stopped};
ghost use Rattle.wire.specs.Causes.{Rose};

use crate::outcome::{Note, Outcome, Status};
use ban_lurker::LurkCore;
use cache_law::{Boot, Params};
use replay::{Played, ReplayError, Replayed, run_session};
use session_text::{Session, SessionError};
use std::alloc::{AllocError, Global};
use units::{Sequence, Shared, Text};
use vcl_library::Library;
use vcl_runner::Run;
use vmod_host::VmodTable;
use wire::Sink;

/// The VCL that a session begins under, and the name of its one backend.
const BOOT_TEXT: &[u8] = b"vcl 4.1; backend default { .host = \"127.0.0.1\"; .port = \"8080\"; }";

const BACKEND: &[u8] = b"default";

fn make_boot(alloc: Global) -> Result<Boot, AllocError>
    ensures { IfOk result (λ boot. boot ≡ opening_boot) }
{
    let mut backends = Sequence::new(alloc);
    backends.push(Text::of(alloc, BACKEND)?)?;
    Ok(Boot {
        text: Text::of(alloc, BOOT_TEXT)?,
        backends,
    })
}

/// A run in which nothing was played.
pub(crate) fn stopped(alloc: Global, status: Status, note: Option<Note>) -> Outcome
    ensures { result ≡ one_stopped status note }
{
    Outcome {
        status,
        note,
        history: Sequence::new(alloc),
        swept: Sequence::new(alloc),
    }
}

// How a session that was played ended.
fn ended(replayed: Replayed) -> Outcome
    ensures { result ≡ outcome_of replayed.played.history replayed.played.swept replayed.refusal }
{
    let (status, note) = match replayed.refusal {
        None => (Status::Done, None),
        Some(ReplayError::Idle(line)) => (Status::Session, Some(Note { line, kind: 7 })),
        Some(ReplayError::Unanswered(line)) => (Status::Session, Some(Note { line, kind: 8 })),
        Some(ReplayError::WriteFault) => (Status::WriteFault, None),
        Some(ReplayError::HistoryFull) => (Status::HistoryFull, None),
        Some(ReplayError::NoMemory) => (Status::NoMemory, None),
    };
    let Played { history, swept } = replayed.played;
    Outcome {
        status,
        note,
        history,
        swept,
    }
}

/// The session that a text is, or how a run ends that can't play it.
pub(crate) fn read_session(alloc: Global, text: &[u8]) -> Result<Session, Outcome>
    ensures session { IfOk result (IsSession text.now) }
    ensures only { IfOk result (λ session. (other : TheSession) → IsSession text.now other → session ≡ other) }
    ensures unplayed { IfErr result (IsUnplayed text.now) }
    ensures wanting { IfErr result (λ outcome. (session : TheSession) → IsSession text.now session → outcome.status ≡ Status.NoMemory) }
{
    match session_text::read(alloc, text) {
        Ok(session) => Ok(session),
        Err(SessionError::Refused { line, kind }) => {
            let kind = kind.number();
            Err(stopped(alloc, Status::Session, Some(Note { line, kind })))
        }
        Err(SessionError::NoMemory) => Err(stopped(alloc, Status::NoMemory, None)),
    }
}

/// Plays the session over a cache of this kind within these limits, and writes its transcript to the sink. Texts of VCL that its
/// console is given may call the functions of the table.
pub(crate) fn play<C: LurkCore + Drop, K: Sink>(
    alloc: Global,
    params: &Params,
    vmods: &Shared<VmodTable>,
    session: Session,
    sink: &mut K,
) -> Outcome
    requires functions { vmods.now.stored ≡ std_functions }
    requires clients { HasClients session }
    requires unsegmented { params.now.segments ≡ false }
    ensures ended { HasEnded vmods.now.stored params.now session (K.held sink.old) (K.held sink.new) result }
    ensures cause { result.status ≡ Status.WriteFault → Rose (K.faults sink.old) (K.faults sink.new) }
{
    let boot = match make_boot(alloc) {
        Ok(boot) => boot,
        Err(_) => return stopped(alloc, Status::NoMemory, None),
    };
    let functions = match vmods.copy() {
        Ok(functions) => functions,
        Err(_) => return stopped(alloc, Status::NoMemory, None),
    };
    let mut library = Library::new(functions);
    let replayed = run_session::<C, Run, Library, K>(
        alloc,
        session,
        vmods,
        &mut library,
        params,
        boot,
        sink,
    );
    ended(replayed)
}
