// Why a journal wasn't written further.
ghost use Rattle.std.specs.Prelude.{◌≡◌};

use std::alloc::AllocError;
use std::error::Error;
use std::fmt::{self, Display, Formatter};
use wire::WriteFault;

/// Why a journal wasn't written further.
#[derive(Clone, Copy, Debug, PartialEq, Eq)]
pub enum JournalError {
    /// The sink failed, or took nothing of a piece that isn't empty.
    WriteFault,
    NoMemory,
}

impl From<AllocError> for JournalError {
    ghost use Rattle.journal_writer.specs.declared.error.JournalError.TheVariants.{NoMemory};

    ghost from_gives = { λ _ error. error ≡ NoMemory };

    fn from(_error: AllocError) -> JournalError {
        JournalError::NoMemory
    }
}

impl From<WriteFault> for JournalError {
    ghost use Rattle.journal_writer.specs.declared.error.JournalError.TheVariants.{WriteFault};

    ghost from_gives = { λ _ error. error ≡ WriteFault };

    fn from(_error: WriteFault) -> JournalError {
        JournalError::WriteFault
    }
}

impl Display for JournalError {
    fn fmt<W: fmt::Write>(&self, f: &mut Formatter<W>) -> fmt::Result {
        f.write_str(match self {
            JournalError::WriteFault => "the journal can't be written",
            JournalError::NoMemory => "out of memory",
        })
    }
}

impl Error for JournalError {}
