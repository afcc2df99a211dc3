// What a run leaves.
ghost use Rattle.std.specs.Prelude.{◌≡◌};
ghost use Rattle.varn_program.specs.Statuses.{code_of};

use cache_law::Entry;
use units::Sequence;

/// How a run ended.
#[derive(Clone, Copy, Debug, PartialEq, Eq)]
pub enum Status {
    /// The run was whole.
    Done,
    /// The words aren't those of a command.
    Words,
    /// The session has no reading, or is idle or unanswered at the noted line.
    Session,
    /// The source failed.
    ReadFault,
    /// The sink failed.
    WriteFault,
    NoMemory,
    /// The next call of the schedule doesn't fit the history.
    HistoryFull,
}

impl Status {
    /// The number that the program ends with.
    pub fn code(self) -> u8
        ensures { result ≡ code_of self }
    {
        match self {
            Status::Done => 0,
            Status::Words => 2,
            Status::Session => 3,
            Status::ReadFault => 4,
            Status::WriteFault => 5,
            Status::NoMemory => 6,
            Status::HistoryFull => 9,
        }
    }
}

/// A line of the session, counted from 1, and the kind of its fault: 1 a word, 2 unknown, 3 an argument,
/// 4 a moment that goes back, 5 no `end`, 6 behind `end`, 7 idle, 8 unanswered.
#[derive(Clone, Copy, Debug, PartialEq, Eq)]
pub struct Note {
    pub line: u32,
    pub kind: u8,
}

/// How a run ended, the line that is to blame, the history of its cache, and for each `lurk` that was heard at how many
/// objects the lurker looked.
#[derive(Drop)]
pub struct Outcome {
    pub status: Status,
    pub note: Option<Note>,
    pub history: Sequence<Entry>,
    pub swept: Sequence<u32>,
}
