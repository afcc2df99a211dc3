// The programs of workers, and the VCL that all begin with.
ghost use Rattle.std.specs.Prelude.{◌≡◌, ◌≤◌, IfErr, IfOk};
ghost use Rattle.boot_file.specs.Booting.{Boots, Why};
ghost use Rattle.vcl_library.specs.Functions.{std_functions};
ghost use Rattle.wire.specs.Causes.{Rose};

use boot_file::{BootError, read_boot};
use cache_law::Boot;
use std::alloc::{AllocError, Global};
use steering::Stock;
use units::{Shared, Text};
use vcl_library::{Kept, Library};
use vmod_host::VmodTable;
use world::World;

/// The number of the VCL that a server begins under.
const BOOT_VCL: u32 = 1;

/// What the library of each worker begins with: the stored functions of the module `std`, and the program of the VCL that the server
/// begins under.
#[derive(Drop)]
pub(crate) struct SharedPrograms {
    functions: Shared<VmodTable>,
    boot: Shared<Kept>,
    ghost standard: { functions.stored ≡ std_functions },
}

impl Stock<Library> for SharedPrograms {
    fn programs(&self, _alloc: Global) -> Result<Library, AllocError> {
        Ok(Library::with(self.functions.copy()?, self.boot.copy()?))
    }
}

// What begins with the program of this text.
fn programs_with(
    alloc: Global,
    functions: Shared<VmodTable>,
    text: &Text,
) -> Result<SharedPrograms, AllocError>
    requires { functions.stored ≡ std_functions }
{
    let boot = Kept::of(alloc, functions.copy()?, BOOT_VCL, text)?;
    Ok(SharedPrograms { functions, boot })
}

/// The VCL of the file of this name, and programs of which its own is made already, once for all workers.
pub(crate) fn stocked_boot<W: World>(
    alloc: Global,
    world: &mut W,
    name: &Text,
    vmods: Shared<VmodTable>,
) -> Result<(Boot, SharedPrograms), BootError>
    requires { vmods.stored ≡ std_functions }
    ensures boot { IfOk result (λ stocked. Boots (W.files world.old) name.now vmods.stored stocked.0) }
    ensures why { IfErr result (Why (W.files world.old) name.now vmods.stored (Rose (W.shelf_faults world.old) (W.shelf_faults world.new))) }
    ensures later { W.shelf_faults world.old ≤ W.shelf_faults world.new }
    ensures ports { W.ports world.new ≡ W.ports world.old }
    ensures links { W.links world.new ≡ W.links world.old }
    ensures kept { W.kept world.new ≡ W.kept world.old }
    ensures given { W.given world.new ≡ W.given world.old }
    ensures kits { W.kits world.new ≡ W.kits world.old }
    ensures files { W.files world.new ≡ W.files world.old }
    ensures listens { W.listen_faults world.new ≡ W.listen_faults world.old }
    ensures ended { W.ended world.new ≡ W.ended world.old }
{
    let boot = read_boot(alloc, world, name, &vmods)?;
    match programs_with(alloc, vmods, &boot.text) {
        Ok(programs) => Ok((boot, programs)),
        Err(_) => Err(BootError::NoMemory),
    }
}
