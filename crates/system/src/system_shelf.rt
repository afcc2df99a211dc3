// The system's files.
ghost use Rattle.std.specs.Prelude.{◌≡◌, None};

use std::fs;
use std::io::{self, ErrorKind};
use std::rt::Files;
use units::Text;
use world::{Shelf, ShelfError};

/// The system's files by name. It tells nothing of them.
#[derive(Drop)]
pub struct SystemShelf<R: Files + AllocGlobal + Drop> {
    pub rt: R,
    pub faults: u64,
}

impl<R: Files + AllocGlobal + Drop> SystemShelf<R> {
    pub fn new(rt: R) -> SystemShelf<R>
        ensures { result ≡ record { rt = rt; faults = 0 } }
    {
        SystemShelf { rt, faults: 0 }
    }
}

// The bytes of a file whose name is UTF-8.
fn bytes_at<R: Files + AllocGlobal>(rt: &R, name: &Text) -> io::Result<Vec<u8>> {
    let name = str::from_utf8(name.bytes()).map_err(|_| io::Error::from(ErrorKind::InvalidInput))?;
    fs::read(rt, name)
}

impl<R: Files + AllocGlobal + Drop> Shelf for SystemShelf<R> {
    ghost files = { λ _. None };

    ghost faults = { λ s. s.faults };

    /// A name that isn't UTF-8 is that of no file that can be read.
    fn read(&mut self, name: &Text) -> Result<Option<Text>, ShelfError> {
        match bytes_at(&self.rt, name) {
            Ok(bytes) => Ok(Some(Text::from_vec(bytes)?)),
            Err(error) => match error.kind() {
                ErrorKind::NotFound => Ok(None),
                ErrorKind::OutOfMemory => Err(ShelfError::NoMemory),
                _ => {
                    self.faults = self.faults.saturating_add(1);
                    Err(ShelfError::Failed)
                }
            },
        }
    }
}
