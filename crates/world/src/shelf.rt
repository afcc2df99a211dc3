// Where files are read.
ghost use Rattle.std.specs.Prelude.{◌≡◌, ◌≤◌, ℕ, List, IfOk, IsErrOf};
ghost use Rattle.std.specs.declared.option.Option.{Option};
ghost use Rattle.wire.specs.Causes.{Rose};
ghost use Rattle.world.specs.Files.{IsShelved};
ghost use Rattle.world.specs.declared.file.File.{File as Filed};

use crate::ShelfError;
use units::Text;

/// Where files are read by name. No call changes them.
pub trait Shelf: Drop {
    /// The files by which `read` answers, where they are told.
    ghost files: { Self → Option (List Filed) };

    /// How often a file couldn't be read; the greatest count stands for all beyond.
    ghost faults: { Self → ℕ };

    /// The text of the file of that name. None is a missing file.
    fn read(&mut self, name: &Text) -> Result<Option<Text>, ShelfError>
        ensures text { IfOk result (λ text. IsShelved (files self.old) name.now text) }
        ensures later { faults self.old ≤ faults self.new }
        ensures failed { IsErrOf result ShelfError.Failed → Rose (faults self.old) (faults self.new) }
        ensures files { files self.new ≡ files self.old };
}
