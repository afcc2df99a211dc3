// A shelf in memory whose calls fail at chosen numbers.
ghost use Rattle.std.specs.Prelude.{◌≡◌, ◌≤◌, find, Some, Contains, IfOk, IsErrOf};
ghost use Rattle.std.specs.Option.{option_copied};
ghost use Rattle.wire.specs.Calls.{called, failed, uncalled};
ghost use Rattle.wire.specs.Causes.{Rose};
ghost use Rattle.world.specs.Files.{IsShelved, has_name, text_named};

use crate::{File, Shelf, ShelfError};
use std::alloc::AllocError;
use std::marker::Model;
use units::{Sequence, Text};
use wire::Calls;

/// A shelf of files in memory. Its calls are numbered from 0 on; those with the given numbers fail.
#[derive(Drop)]
pub struct FailingShelf {
    files: Sequence<File>,
    reads: Calls,
}

impl Model for FailingShelf {
    ghost use Rattle.world.specs.Files.{ShelfState};

    ghost Value = { ShelfState };

    ghost view = { λ s. record { files = s.files; reads = s.reads } };
}

fn file_of<'f>(files: &'f [File], name: &[u8]) -> Option<&'f File>
    ensures { option_copied result ≡ find (has_name name.now) files.now }
{
    files.iter().find(|file| name == file.name.bytes())
}

// The text of the first file of that name.
fn text_of(files: &[File], name: &[u8]) -> Result<Option<Text>, AllocError>
    ensures { IfOk result (λ text. text ≡ text_named name.now files.now) }
{
    match file_of(files, name) {
        Some(file) => Ok(Some(file.text.copy()?)),
        None => Ok(None),
    }
}

impl FailingShelf {
    /// A shelf of these files.
    pub fn new(files: Sequence<File>, failing: Vec<u64>) -> FailingShelf
        ensures { result ≡ record { files = files; reads = uncalled failing.items } }
    {
        FailingShelf {
            files,
            reads: Calls::new(failing),
        }
    }

    pub fn faults(&self) -> u64
        ensures { result ≡ self.now.reads.faults }
    {
        self.reads.faults()
    }
}

impl Shelf for FailingShelf {
    ghost use Rattle.std.specs.Prelude.{Some};

    ghost files = { λ s. Some s.files };

    ghost faults = { λ s. s.reads.faults };

    fn read(&mut self, name: &Text) -> Result<Option<Text>, ShelfError>
        ensures text { IfOk result (λ text. IsShelved (Some self.old.files) name.now text) }
        ensures later { self.old.reads.faults ≤ self.new.reads.faults }
        ensures failed { IsErrOf result ShelfError.Failed → Rose self.old.reads.faults self.new.reads.faults }
        ensures files { Some self.new.files ≡ Some self.old.files }
        ensures due { IsErrOf result ShelfError.Failed → Contains self.old.reads.failing self.old.reads.calls }
        ensures fails { Contains self.old.reads.failing self.old.reads.calls → IsErrOf result ShelfError.Failed }
        ensures next { ¬ (IsErrOf result ShelfError.Failed) → self.new ≡ record self.old { reads = called self.old.reads } }
        ensures err { IsErrOf result ShelfError.Failed → self.new ≡ record self.old { reads = failed self.old.reads } }
    {
        if self.reads.call() {
            self.reads.fault();
            return Err(ShelfError::Failed);
        }
        Ok(text_of(self.files.as_slice(), name.bytes())?)
    }
}
