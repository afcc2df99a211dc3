// Files by name.
use std::alloc::{AllocError, Global};
use std::error::Error;
use std::fmt::{self, Display, Formatter, Write};
use units::{Copied, Text};

/// A file of a world in memory.
#[derive(Drop)]
pub struct File {
    pub name: Text,
    pub text: Text,
}

impl Copied for File {
    fn copied(&self, _alloc: Global) -> Result<File, AllocError> {
        Ok(File {
            name: self.name.copy()?,
            text: self.text.copy()?,
        })
    }
}

/// Why a file wasn't read.
#[derive(Clone, Copy, Debug, PartialEq, Eq)]
pub enum ShelfError {
    /// It couldn't be read, and the shelf's count of faults rose.
    Failed,
    NoMemory,
}

impl From<AllocError> for ShelfError {
    ghost use Rattle.std.specs.Prelude.{◌≡◌};
    ghost use Rattle.world.specs.declared.file.ShelfError.TheVariants.{NoMemory};

    ghost from_gives = { λ _ error. error ≡ NoMemory };

    fn from(_error: AllocError) -> ShelfError {
        ShelfError::NoMemory
    }
}

impl Display for ShelfError {
    fn fmt<W: Write>(&self, f: &mut Formatter<W>) -> fmt::Result {
        f.write_str(match self {
            ShelfError::Failed => "a file could not be read",
            ShelfError::NoMemory => "out of memory",
        })
    }
}

impl Error for ShelfError {}
