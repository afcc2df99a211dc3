// What is printed for help.
ghost use Rattle.std.specs.Prelude.{◌≡◌};
ghost use Rattle.std.specs.Str.{bytes_eq};
ghost use Rattle.diagnostics.specs.Helping.{help_of, topic_of};

use std::fmt;
use units::Text;

const NAME: &str = "varn: a shared HTTP cache, steered by VCL, whose behaviour is proved";

const SERVE: &str =
    "varn serve --listen P --vcl FILE --workers N [--conns K] [--cli P] [--room N] [--history N]";

const REPLAY: &str = "varn replay [--room N] [--history N] < SESSION > TRANSCRIPT";

const LOAD: &str = "varn load --seed N --steps M";

const AUDIT: &str = "varn audit < JOURNAL";

const COMMANDS: &str =
    "serve         serves connections over one cache, and at the end writes how many requests they had
replay        plays a session from standard input and writes its transcript to standard output
load          plays a session that is made from a number, and writes what came of it
audit         tells whether the journal on standard input is that of a lawful history, and else its first bad line";

const SERVE_OPTIONS: &str = "--listen P    the port to listen at, on all addresses: 1 to 65535
--vcl FILE    the file with the VCL; its name doesn't begin with a hyphen
--workers N   how many connections are served side by side: 1 to 64
--conns K     how many connections are served before the program ends: 1 to 1000000; no limit when not given
--cli P       the port of the console, on this machine's loopback address: 1 to 65535; none when not given";

const LIMITS: &str =
    "--room N      the bytes that the stored objects may have: 0 to 1073741824; 268435456 when not given
--history N   the bytes that the history of calls may have: 0 to 1073741824; 268435456 when not given";

const LOAD_OPTIONS: &str = "--seed N      the number that the session is made from: 0 to 2147483647
--steps M     how many steps the session has: 1 to 100000";

const ORDER: &str =
    "Options stand in any order, each once, and those in brackets may be left out. A number is decimal digits without a
leading zero.";

const SERVE_ENDS: &str =
    "Ends with status 0 where the run was whole, 2 for other words than these, 4 where the VCL's file can't be read, 5 where
writing failed, 6 for want of memory, 7 where a port can't be listened at or accepting failed, 8 where the VCL's file
is missing or its text is refused, and 9 where the history is full.";

const REPLAY_ENDS: &str =
    "Ends with status 0 where the run was whole, 2 for other words than these, 3 where the session is faulty or can't be
played, 4 where reading failed, 5 where writing failed, 6 for want of memory, and 9 where the history is full.";

const LOAD_ENDS: &str =
    "Ends with status 0 where the run was whole, 2 for other words than these, 3 where the session can't be played, 5 where
writing failed, 6 for want of memory, and 9 where the history is full.";

const AUDIT_TELLS: &str =
    "Writes `legal N` of the journal of a lawful history of N entries, and else `line L kind K`: the first bad line, and the least
number of what is wrong there. 1: it is no line, or has no place there; 2: its moment goes back; 3: its caller waits; 4: it doesn't
fit the limit; 5: its call isn't answered so; 6: something is open where a segment ends; 7: the journal isn't closed there, or is already.";

const AUDIT_ENDS: &str =
    "Ends with status 0 where the journal is that of a lawful history, 2 for other words than these, 4 where reading failed, 5 where
writing failed, 6 for want of memory, and 10 where the journal is none.";

/// What help is asked for.
#[derive(Clone, Copy, Debug, PartialEq, Eq)]
pub enum Help {
    Program,
    Serve,
    Replay,
    Load,
    Audit,
    Version,
}

fn is_word(word: &Text, wanted: &[u8]) -> bool
    ensures { result ≡ bytes_eq word.now wanted.now }
{
    word.bytes() == wanted
}

// The help for one command.
fn topic_of(command: &Text) -> Option<Help>
    ensures { result ≡ topic_of command.now }
{
    if is_word(command, b"serve") {
        Some(Help::Serve)
    } else if is_word(command, b"replay") {
        Some(Help::Replay)
    } else if is_word(command, b"load") {
        Some(Help::Load)
    } else if is_word(command, b"audit") {
        Some(Help::Audit)
    } else {
        None
    }
}

impl Help {
    /// The help that the words of a command line ask for, if they do.
    pub fn of(words: &[Text]) -> Option<Help>
        ensures { result ≡ help_of words.now }
    {
        match words {
            [word] => {
                if is_word(word, b"--help") {
                    Some(Help::Program)
                } else if is_word(word, b"--version") {
                    Some(Help::Version)
                } else {
                    None
                }
            }
            [command, word] => {
                if is_word(word, b"--help") {
                    topic_of(command)
                } else {
                    None
                }
            }
            _ => None,
        }
    }
}

impl fmt::Display for Help {
    fn fmt<W: fmt::Write>(&self, f: &mut fmt::Formatter<W>) -> fmt::Result {
        match self {
            Help::Program => write!(
                f,
                "{NAME}\n\nusage: {SERVE}\n       {REPLAY}\n       {LOAD}\n       {AUDIT}\n       varn serve --help\n       varn replay --help\n       varn load --help\n       varn audit --help\n       varn --help\n       varn --version\n\n{COMMANDS}\n\n{SERVE_OPTIONS}\n{LIMITS}\n{LOAD_OPTIONS}\n\n{ORDER}"
            ),
            Help::Serve => write!(
                f,
                "usage: {SERVE}\n\n{SERVE_OPTIONS}\n{LIMITS}\n\n{ORDER}\n{SERVE_ENDS}"
            ),
            Help::Replay => write!(f, "usage: {REPLAY}\n\n{LIMITS}\n\n{ORDER}\n{REPLAY_ENDS}"),
            Help::Load => write!(f, "usage: {LOAD}\n\n{LOAD_OPTIONS}\n\n{ORDER}\n{LOAD_ENDS}"),
            Help::Audit => write!(f, "usage: {AUDIT}\n\n{AUDIT_TELLS}\n{AUDIT_ENDS}"),
            Help::Version => f.write_str("varn 0.1"),
        }
    }
}
