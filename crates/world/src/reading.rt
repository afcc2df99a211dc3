// One file of a world.
ghost use Rattle.std.specs.Prelude.{◌≡◌, ◌≤◌, IfOk, IsErrOf};
ghost use Rattle.wire.specs.Causes.{Rose};
ghost use Rattle.world.specs.Files.{IsShelved};

use crate::{Shelf, ShelfError, World};
use units::Text;

/// The text of the world's file of that name, by a shelf that is put back at once. None is a missing file.
pub fn read_file<W: World>(world: &mut W, name: &Text) -> Result<Option<Text>, ShelfError>
    ensures text { IfOk result (λ text. IsShelved (W.files world.old) name.now text) }
    ensures later { W.shelf_faults world.old ≤ W.shelf_faults world.new }
    ensures failed { IsErrOf result ShelfError.Failed → Rose (W.shelf_faults world.old) (W.shelf_faults world.new) }
    ensures ports { W.ports world.new ≡ W.ports world.old }
    ensures links { W.links world.new ≡ W.links world.old }
    ensures kept { W.kept world.new ≡ W.kept world.old }
    ensures given { W.given world.new ≡ W.given world.old }
    ensures kits { W.kits world.new ≡ W.kits world.old }
    ensures files { W.files world.new ≡ W.files world.old }
    ensures listens { W.listen_faults world.new ≡ W.listen_faults world.old }
    ensures ended { W.ended world.new ≡ W.ended world.old }
{
    let Ok(mut shelf) = world.shelf() else {
        return Err(ShelfError::NoMemory);
    };
    let found = shelf.read(name);
    world.retire_shelf(shelf);
    found
}
