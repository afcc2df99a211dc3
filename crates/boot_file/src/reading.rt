// The VCL of a file.
ghost use Rattle.std.specs.Prelude.{◌≡◌, ◌≤◌, IfOk, IfErr, option_map};
ghost use Rattle.boot_file.specs.Booting.{Boots, Declares, Why, WhyText, backend_of, backends_of};
ghost use Rattle.wire.specs.Causes.{Rose};

use crate::error::BootError;
use cache_law::Boot;
use std::alloc::{AllocError, Global};
use units::{Sequence, Text};
use vcl_store::checked;
use vcl_tree::{Item, VclError};
use vmod_host::VmodTable;
use world::{ShelfError, World, read_file};

// The name of the backend that the item declares.
fn backend_of(item: &Item) -> Option<&Text>
    ensures { option_map (λ name. name.now) result ≡ backend_of item.now }
{
    match item {
        Item::Backend(_, name, _) => Some(&name.text),
        Item::NoBackend(_, name) => Some(&name.text),
        _ => None,
    }
}

// The names of the backends that items declare.
fn backends_of(alloc: Global, items: &[Item]) -> Result<Sequence<Text>, AllocError>
    ensures { IfOk result (λ names. names ≡ backends_of items.now) }
{
    let mut names = Sequence::new(alloc);
    for item in items {
        if let Some(name) = backend_of(item) {
            names.push(name.copy()?)?;
        }
    }
    Ok(names)
}

// The text with the backends that it declares, if it is sound.
fn boot_of(alloc: Global, text: Text, vmods: &VmodTable) -> Result<Boot, BootError>
    ensures boot { IfOk result (Declares vmods.now.stored text) }
    ensures refused { IfErr result (WhyText vmods.now.stored text) }
{
    match checked(alloc, &text, vmods) {
        Ok(program) => match backends_of(alloc, program.tree.items.as_slice()) {
            Ok(backends) => Ok(Boot { text, backends }),
            Err(_) => Err(BootError::NoMemory),
        },
        Err(VclError::Refused { kind, place }) => Err(BootError::Refused { kind, place }),
        Err(VclError::NoMemory) => Err(BootError::NoMemory),
    }
}

/// The VCL of the world's file of that name, whose text may call the functions of the table.
pub fn read_boot<W: World>(
    alloc: Global,
    world: &mut W,
    name: &Text,
    vmods: &VmodTable,
) -> Result<Boot, BootError>
    ensures boot { IfOk result (Boots (W.files world.old) name.now vmods.now.stored) }
    ensures why { IfErr result (Why (W.files world.old) name.now vmods.now.stored (Rose (W.shelf_faults world.old) (W.shelf_faults world.new))) }
    ensures later { W.shelf_faults world.old ≤ W.shelf_faults world.new }
    ensures ports { W.ports world.new ≡ W.ports world.old }
    ensures links { W.links world.new ≡ W.links world.old }
    ensures kept { W.kept world.new ≡ W.kept world.old }
    ensures given { W.given world.new ≡ W.given world.old }
    ensures kits { W.kits world.new ≡ W.kits world.old }
    ensures files { W.files world.new ≡ W.files world.old }
    ensures listens { W.listen_faults world.new ≡ W.listen_faults world.old }
    ensures ended { W.ended world.new ≡ W.ended world.old }
{
    match read_file(world, name) {
        Ok(Some(text)) => boot_of(alloc, text, vmods),
        Ok(None) => Err(BootError::Missing),
        Err(ShelfError::Failed) => Err(BootError::Unreadable),
        Err(ShelfError::NoMemory) => Err(BootError::NoMemory),
    }
}
