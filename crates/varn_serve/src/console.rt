// The console beside the workers.
ghost use Rattle.std.specs.Prelude.{◌≡◌, false, All, IfErr, IfOk, IfSome};
ghost use Rattle.console_job.specs.Opening.{IsConsoleAt, IsGone, IsOpen, WhyClosed, talks_of};
ghost use Rattle.wire.specs.Causes.{Rose};
ghost use Rattle.world.specs.Keeping.{MayAdd};
ghost use Rattle.varn_serve.specs.Run.{Halts, MayAskFor, without_console};

use crate::ending::Status;
use cache_law::Entry;
use console_job::{BookOf, ConsoleJob, ConsoleOf, OpenError, close_console};
use console_link::ConsoleTalk;
use crew::Outcome;
use entrance::Reason;
use std::alloc::Global;
use units::{Sequence, Shared};
use vmod_host::VmodTable;
use world::World;

/// What workers and the console beside them came to.
#[derive(Drop)]
pub(crate) struct Came<N> {
    pub history: Sequence<Entry>,
    pub keepers: Vec<N>,
    pub console: Vec<ConsoleTalk>,
    pub connections: u64,
    pub reason: Reason,
}

// How a run ends in which there could be no console.
fn without_console(error: OpenError) -> Status
    ensures { result ≡ without_console error }
{
    match error {
        OpenError::Failed => Status::ListenFault,
        OpenError::NoMemory => Status::NoMemory,
    }
}

// A console at this port.
fn open<V: World>(
    operators: &mut V,
    port: u16,
    vmods: Shared<VmodTable>,
) -> Result<ConsoleOf<V>, OpenError>
    ensures open { IfOk result (λ job. IsOpen vmods.stored (V.files operators.old)
        (record { functions = job.vmods.stored; files = V.Shelf.files job.shelf; faults = V.Shelf.faults job.shelf; readings = V.Clock.readings job.kit.clock; came = V.Listener.given job.listener })) }
    ensures why { IfErr result (WhyClosed (Rose (V.listen_faults operators.old) (V.listen_faults operators.new))) }
    ensures ports { MayAdd (V.ports operators.old) (V.ports operators.new) port }
    ensures links { V.links operators.new ≡ V.links operators.old }
    ensures given { V.given operators.new ≡ V.given operators.old }
    ensures kits { V.kits operators.new ≡ V.kits operators.old }
    ensures shelves { V.shelf_faults operators.new ≡ V.shelf_faults operators.old }
{
    let kit = operators.kit()?;
    let shelf = operators.shelf()?;
    match operators.listen(port) {
        Ok(listener) => Ok(ConsoleJob {
            listener,
            shelf,
            kit,
            vmods,
        }),
        Err(_) => Err(OpenError::Failed),
    }
}

/// A console at the port, if there is one for it.
pub(crate) fn console_at<V: World>(
    operators: &mut V,
    port: Option<u16>,
    vmods: Shared<VmodTable>,
) -> Result<Option<ConsoleOf<V>>, Status>
    ensures open { IfOk result (λ console. IsConsoleAt port console (λ job. IsOpen vmods.stored (V.files operators.old)
        (record { functions = job.vmods.stored; files = V.Shelf.files job.shelf; faults = V.Shelf.faults job.shelf; readings = V.Clock.readings job.kit.clock; came = V.Listener.given job.listener }))) }
    ensures halted { IfErr result (Halts (Rose (V.listen_faults operators.old) (V.listen_faults operators.new))) }
    ensures ports { MayAskFor (V.ports operators.old) (V.ports operators.new) port }
    ensures links { V.links operators.new ≡ V.links operators.old }
    ensures given { V.given operators.new ≡ V.given operators.old }
    ensures kits { V.kits operators.new ≡ V.kits operators.old }
    ensures shelves { V.shelf_faults operators.new ≡ V.shelf_faults operators.old }
{
    match port {
        Some(port) => match open(operators, port, vmods) {
            Ok(console) => Ok(Some(console)),
            Err(error) => Err(without_console(error)),
        },
        None => Ok(None),
    }
}

// Takes a console down, if there was one, and gives its talks.
fn take_down<V: World>(
    alloc: Global,
    done: Option<BookOf<V>>,
    operators: &mut V,
) -> Vec<ConsoleTalk>
    requires closed { IfSome done (λ book. All (λ link. V.Listener.Link.is_open link ≡ false) book.links.items) }
    ensures talks { result.items ≡ talks_of done }
    ensures gone { IsGone V.Shelf.faults V.Listener.given done
        (record { links = V.links operators.old; kits = V.kits operators.old; given = V.given operators.old; shelf_faults = V.shelf_faults operators.old })
        (record { links = V.links operators.new; kits = V.kits operators.new; given = V.given operators.new; shelf_faults = V.shelf_faults operators.new }) }
    ensures ports { V.ports operators.new ≡ V.ports operators.old }
{
    match done {
        Some(book) => close_console(operators, book),
        None => Vec::new(alloc),
    }
}

/// What a run came to, once the console is taken down.
pub(crate) fn close_run<V: World, N>(
    alloc: Global,
    outcome: Outcome<N, BookOf<V>>,
    operators: &mut V,
) -> Came<N>
    requires closed { IfSome outcome.done (λ book. All (λ link. V.Listener.Link.is_open link ≡ false) book.links.items) }
    ensures history { result.history ≡ outcome.history }
    ensures keepers { result.keepers ≡ outcome.keepers }
    ensures console { result.console.items ≡ talks_of outcome.done }
    ensures connections { result.connections ≡ outcome.connections }
    ensures reason { result.reason ≡ outcome.reason }
    ensures gone { IsGone V.Shelf.faults V.Listener.given outcome.done
        (record { links = V.links operators.old; kits = V.kits operators.old; given = V.given operators.old; shelf_faults = V.shelf_faults operators.old })
        (record { links = V.links operators.new; kits = V.kits operators.new; given = V.given operators.new; shelf_faults = V.shelf_faults operators.new }) }
    ensures ports { V.ports operators.new ≡ V.ports operators.old }
{
    let Outcome {
        history,
        keepers,
        done,
        connections,
        reason,
    } = outcome;
    Came {
        history,
        keepers,
        console: take_down(alloc, done, operators),
        connections,
        reason,
    }
}
