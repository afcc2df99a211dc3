// How a console is opened over the outside, and taken down again.
ghost use Rattle.std.specs.Prelude.{◌≡◌, ◌≤◌, ◌∷◌, [], false, All, IfErr, IfOk};
ghost use Rattle.wire.specs.Calls.{joined_count};
ghost use Rattle.wire.specs.Causes.{Rose};
ghost use Rattle.wire.specs.Talks.{Adds};
ghost use Rattle.world.specs.Keeping.{MayAdd};
ghost use Rattle.console_job.specs.Opening.{IsOpen, WhyClosed};

use crate::{ConsoleBook, ConsoleJob};
use console_link::ConsoleTalk;
use std::alloc::AllocError;
use units::Shared;
use vmod_host::VmodTable;
use world::{Listener, World};

/// Why there is no console.
#[derive(Clone, Copy, Debug, PartialEq, Eq)]
pub enum OpenError {
    /// Its port can't be listened at, and the world's count of failed listening rose.
    Failed,
    NoMemory,
}

impl From<AllocError> for OpenError {
    ghost use Rattle.console_job.specs.declared.opening.OpenError.TheVariants.{NoMemory};

    ghost from_gives = { λ _ error. error ≡ NoMemory };

    fn from(_error: AllocError) -> OpenError {
        OpenError::NoMemory
    }
}

/// The console of a world.
pub type ConsoleOf<V> = ConsoleJob<
    <V as World>::Listener,
    <V as World>::Shelf,
    <V as World>::Dialer,
    <V as World>::Clock,
>;

/// What the console of a world leaves.
pub type BookOf<V> = ConsoleBook<
    <V as World>::Listener,
    <V as World>::Shelf,
    <V as World>::Dialer,
    <V as World>::Clock,
    <<V as World>::Listener as Listener>::Link,
>;

/// A console at this port of the world.
pub fn open_console<V: World>(
    world: &mut V,
    port: u16,
    vmods: Shared<VmodTable>,
) -> Result<ConsoleOf<V>, OpenError>
    ensures open { IfOk result (λ job. IsOpen vmods.stored (V.files world.old)
        (record { functions = job.vmods.stored; files = V.Shelf.files job.shelf; faults = V.Shelf.faults job.shelf; readings = V.Clock.readings job.kit.clock; came = V.Listener.given job.listener })) }
    ensures why { IfErr result (WhyClosed (Rose (V.listen_faults world.old) (V.listen_faults world.new))) }
    ensures ports { MayAdd (V.ports world.old) (V.ports world.new) port }
    ensures links { V.links world.new ≡ V.links world.old }
    ensures given { V.given world.new ≡ V.given world.old }
    ensures kits { V.kits world.new ≡ V.kits world.old }
    ensures files { V.files world.new ≡ V.files world.old }
    ensures shelves { V.shelf_faults world.new ≡ V.shelf_faults world.old }
{
    let kit = world.kit()?;
    let shelf = world.shelf()?;
    match world.listen(port) {
        Ok(listener) => Ok(ConsoleJob {
            listener,
            shelf,
            kit,
            vmods,
        }),
        Err(_) => Err(OpenError::Failed),
    }
}

// Hands ended links back, in their order. It takes no memory.
fn keep_links<V: World>(world: &mut V, links: Vec<<V::Listener as Listener>::Link>)
    requires closed { All (λ link. V.Listener.Link.is_open link ≡ false) links.items }
    ensures links { Adds (V.links world.old) (V.links world.new) links.items }
    ensures ports { V.ports world.new ≡ V.ports world.old }
    ensures given { V.given world.new ≡ V.given world.old }
    ensures kits { V.kits world.new ≡ V.kits world.old }
    ensures listens { V.listen_faults world.new ≡ V.listen_faults world.old }
    ensures shelves { V.shelf_faults world.new ≡ V.shelf_faults world.old }
{
    for link in links {
        world.keep_link(link);
    }
}

/// Hands back what a console leaves, and gives its talks. It takes no memory.
pub fn close_console<V: World>(world: &mut V, book: BookOf<V>) -> Vec<ConsoleTalk>
    requires closed { All (λ link. V.Listener.Link.is_open link ≡ false) book.links.items }
    ensures talks { result ≡ book.talks }
    ensures links { Adds (V.links world.old) (V.links world.new) book.links.items }
    ensures kits { Adds (V.kits world.old) (V.kits world.new) (book.kit ∷ []) }
    ensures given { V.given world.new ≡ joined_count (V.given world.old) (V.Listener.given book.listener) }
    ensures shelves { V.shelf_faults world.new ≡ joined_count (V.shelf_faults world.old) (V.Shelf.faults book.shelf) }
    ensures later { V.listen_faults world.old ≤ V.listen_faults world.new }
    ensures ports { V.ports world.new ≡ V.ports world.old }
{
    let ConsoleBook {
        listener,
        shelf,
        kit,
        talks,
        links,
    } = book;
    keep_links(world, links);
    world.keep_kit(kit);
    world.retire_shelf(shelf);
    world.retire(listener);
    talks
}
