// Why a text is no line of a journal.
ghost use Rattle.std.specs.Prelude.{◌≡◌};

use ban_expr::BanError;
use std::alloc::{AllocError, AllocFailed};

/// What has to stand at a place of a line.
#[derive(Clone, Copy, Debug, PartialEq, Eq)]
pub enum Wanted {
    /// `varn`, `e`, `cut` or `close`.
    Line,
    /// The key of a call.
    Call,
    /// `=`
    Equals,
    /// The key of a reply.
    Reply,
    /// `o`, `m` or `p`.
    Object,
    /// The key of a kind of director.
    Director,
    /// `auto`, `healthy` or `sick`.
    Health,
    /// `active`, `available` or `discarded`.
    State,
    /// A number below 2 ^ 64.
    Number,
    /// A number below 2 ^ 32.
    Middle,
    /// A number below 2 ^ 16.
    Short,
    /// A number from - 2 ^ 63 on and below 2 ^ 63.
    Time,
    /// `0` or `1`.
    Truth,
    /// A quoted text.
    Text,
    /// A number below 2 ^ 64, or `-`.
    NumberOrNone,
    /// A number from - 2 ^ 63 on and below 2 ^ 63, or `-`.
    TimeOrNone,
    /// A quoted text, or `-`.
    TextOrNone,
}

/// Where the words of a line say nothing more: what is wanted there, and how many words were left.
#[derive(Clone, Copy, Debug)]
pub(crate) struct Stop {
    pub wanted: Wanted,
    pub left: usize,
}

/// Why reading words comes to no end.
#[derive(Clone, Copy, Debug)]
pub(crate) enum Halt {
    Stopped(Stop),
    NoMemory,
}

impl From<AllocError> for Halt {
    ghost use Rattle.journal_reader.specs.declared.fault.Halt.TheVariants.{NoMemory};

    ghost from_gives = { λ _ halt. halt ≡ NoMemory };

    fn from(_: AllocError) -> Halt {
        Halt::NoMemory
    }
}

impl<T: Drop> From<AllocFailed<T>> for Halt {
    ghost use Rattle.journal_reader.specs.declared.fault.Halt.TheVariants.{NoMemory};

    ghost from_gives = { λ _ halt. halt ≡ NoMemory };

    fn from(_: AllocFailed<T>) -> Halt {
        Halt::NoMemory
    }
}

/// What is wrong at a place of a line.
#[derive(Clone, Copy, Debug, PartialEq, Eq)]
pub enum Fault {
    /// The words before are read, and what stands here isn't what has to follow.
    Expected(Wanted),
    /// The words of the ban, whose number stands here, are no ban.
    NoBan(BanError),
    /// The line that the words say is written otherwise from here on.
    Otherwise,
    /// The line that the words say ends here.
    Longer,
}

/// Why a text is no line of a journal: the fault, and its column, the first being 1.
#[derive(Clone, Copy, Debug, PartialEq, Eq)]
pub struct Refusal {
    pub column: usize,
    pub fault: Fault,
}

/// Why no line was read.
#[derive(Clone, Copy, Debug, PartialEq, Eq)]
pub enum ReadError {
    Refused(Refusal),
    NoMemory,
}

impl From<AllocError> for ReadError {
    ghost use Rattle.journal_reader.specs.declared.fault.ReadError.TheVariants.{NoMemory};

    ghost from_gives = { λ _ error. error ≡ NoMemory };

    fn from(_: AllocError) -> ReadError {
        ReadError::NoMemory
    }
}
