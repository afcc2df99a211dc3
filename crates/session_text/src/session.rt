// What a session's text is read as.
ghost use Rattle.std.specs.Prelude.{◌≡◌};
ghost use Rattle.session_text.specs.Faults.{kind_number};

use std::alloc::AllocError;
use std::error::Error;
use std::fmt;
use units::{Sequence, Text};

/// A session: its numbered lines in order, without empty lines and comments, and the line of its `end`.
#[derive(Drop)]
pub struct Session {
    pub lines: Sequence<NumberedLine>,
    pub end: u32,
}

/// A line and its number in the text, from 1 on.
#[derive(Drop)]
pub struct NumberedLine {
    pub number: u32,
    pub line: Line,
}

/// What a line says.
#[derive(Drop)]
pub enum Line {
    /// The moment from here on, in milliseconds since 1970.
    At(u64),
    /// A client, 1 to 250, sends these bytes; there is at least one.
    Req { client: u32, text: Text },
    /// The exchange of a fetch gets these bytes and their end.
    Reply { fetch: u64, text: Text },
    /// The exchange of a fetch gets a fault.
    Fail(u64),
    /// A console command.
    Cli(Text),
    /// The lurker looks at so many objects.
    Lurk(u32),
    /// A probe of the backend of this name was good, or was not. The name has at least one byte.
    Probe { backend: Text, good: bool },
}

/// Why a text is no session.
#[derive(Clone, Copy, Debug, PartialEq, Eq)]
pub enum SessionError {
    /// The first line that has no reading, and the least kind there.
    Refused { line: u32, kind: FaultKind },
    NoMemory,
}

impl fmt::Display for SessionError {
    fn fmt<W: fmt::Write>(&self, f: &mut fmt::Formatter<W>) -> fmt::Result {
        match self {
            SessionError::Refused { line, kind } => {
                let kind = kind.number();
                write!(f, "line {line} kind {kind}")
            },
            SessionError::NoMemory => f.write_str("out of memory"),
        }
    }
}

impl Error for SessionError {}

impl From<AllocError> for SessionError {
    ghost use Rattle.session_text.specs.declared.session.SessionError.TheVariants.{NoMemory};

    ghost from_gives = { λ _ error. error ≡ NoMemory };

    fn from(_error: AllocError) -> SessionError {
        SessionError::NoMemory
    }
}

/// What is wrong with a line.
#[derive(Clone, Copy, Drop, PartialEq, Eq, Debug)]
pub enum FaultKind {
    /// What should be a quoted text is none.
    Word,
    /// The first word is none of the known ones.
    Unknown,
    /// What stands behind the first word is not what it takes, or the session is too long.
    Argument,
    /// The moment goes back.
    Moment,
    /// There is no `end`. It is told at the line behind the last one.
    NoEnd,
    /// A line behind `end` that isn't empty and no comment.
    After,
}

impl FaultKind {
    /// The number of the kind, 1 to 6 in the order above.
    pub fn number(self) -> u8
        ensures { result ≡ kind_number self }
    {
        match self {
            FaultKind::Word => 1,
            FaultKind::Unknown => 2,
            FaultKind::Argument => 3,
            FaultKind::Moment => 4,
            FaultKind::NoEnd => 5,
            FaultKind::After => 6,
        }
    }
}
