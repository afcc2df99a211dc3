// The run of a server.
ghost use Rattle.std.specs.Prelude.{◌≡◌, ◌≤◌, ◌⊎◌, ◌||◌, List, None, IfErr, IfOk};
ghost use Rattle.std.specs.List.{AllZip};
ghost use Rattle.cache_law.specs.Beginning.{beginning_of};
ghost use Rattle.crew.specs.Hiring.{IsUnused};
ghost use Rattle.crew.specs.Parts.{all_events};
ghost use Rattle.crew.specs.Running.{Ran, Stopped};
ghost use Rattle.server.specs.Keeping.{places_of, tally_of};
ghost use Rattle.server.specs.declared.keeping.Event.{Event};
ghost use Rattle.steering.specs.Telling.{Tells};
ghost use Rattle.wire.specs.Telling.{told_by};
ghost use Rattle.wire.specs.Calls.{joined_count};
ghost use Rattle.wire.specs.Causes.{Rose};
ghost use Rattle.world.specs.Keeping.{MayAdd};
ghost use Rattle.varn_serve.specs.Endings.{Told, has_full, verdict_of};
ghost use Rattle.console_job.specs.Operating.{MayOperate, places_of_talks};
ghost use Rattle.vcl_runs.specs.Languages.{language_of};
ghost use Rattle.varn_serve.specs.Run.{Halts, MayAskFor, limits_of, unbooted_note, unbooted_status, unserved};

use crate::console::{Came, close_run, console_at};
use crate::ending::{Served, Status, VclNote};
use crate::rounds::{has_full, report, tally_all, verdict};
use boot_file::BootError;
use cache_law::{Boot, CacheCore, Params};
use command_line::ServeOptions;
use crew::{Sign, serve_all};
use lazy_core::LazyCore;
use server::{Keeper, Tally};
use std::alloc::Global;
use std::sync::Wait;
use std::thread::Threads;
use steering::{Steering, Stock};
use units::{Sequence, Shared};
use vcl_runs::{Programs, Runner};
use vmod_host::VmodTable;
use wire::{Dialer, Sink};
use world::{Gate, Listener, World};

pub(crate) type LinkOf<W> = <<W as World>::Listener as Listener>::Link;

/// A run in which nothing was served.
pub(crate) fn stopped<N: Drop>(alloc: Global, status: Status, note: Option<VclNote>) -> Served<N>
    ensures { result ≡ unserved status note }
{
    Served {
        status,
        note,
        history: Sequence::new(alloc),
        keepers: Sequence::new(alloc),
        connections: 0,
        tally: Tally::none(),
        console: Sequence::new(alloc),
    }
}

/// How a run ends that has no VCL to begin under.
pub(crate) fn unbooted<N: Drop>(alloc: Global, error: BootError) -> Served<N>
    ensures { result ≡ unserved (unbooted_status error) (unbooted_note error) }
{
    match error {
        BootError::Missing => stopped(alloc, Status::Vcl, None),
        BootError::Unreadable => stopped(alloc, Status::ReadFault, None),
        BootError::Refused { kind, place } => {
            stopped(alloc, Status::Vcl, Some(VclNote { place, kind }))
        }
        BootError::NoMemory => stopped(alloc, Status::NoMemory, None),
    }
}

/// What workers and the console came to, and what is told of it.
pub(crate) fn finished<L, N: Keeper<L>, S: Sink>(
    alloc: Global,
    came: Came<N>,
    sink: &mut S,
) -> Served<N>
    ensures told { Told (S.held sink.old) (S.held sink.new) (Rose (S.faults sink.old) (S.faults sink.new)) result.tally.rounds (verdict_of came.reason (result.tally.found_full || has_full result.console)) result.status }
    ensures note { result.note ≡ None }
    ensures history { result.history ≡ came.history }
    ensures keepers { result.keepers ≡ came.keepers.items }
    ensures connections { result.connections ≡ came.connections }
    ensures console { result.console ≡ came.console.items }
    ensures tally { (told : List (List (Event L))) → AllZip N.Told came.keepers.items told → result.tally ≡ tally_of (all_events told) }
{
    let Came {
        history,
        keepers,
        console,
        connections,
        reason,
    } = came;
    let tally = tally_all::<L, N>(keepers.as_slice());
    let is_full = tally.found_full || has_full(console.as_slice());
    let status = match verdict(reason, is_full) {
        Status::Done => report(alloc, sink, tally.rounds),
        other => other,
    };
    Served {
        status,
        note: None,
        history,
        keepers: Sequence::from_vec(keepers),
        connections,
        tally,
        console: Sequence::from_vec(console),
    }
}

/// Listens, and has workers serve connections under this VCL, whose rounds are led by programs of this stock, and a console beside them
/// where the order names a port for it. Otherwise it says how a run ends in which nothing was served.
pub(crate) fn serve_stocked<
    R: Threads + Wait + Sync,
    W: World + Send,
    V: World + Send,
    G: Gate + Sync,
    F: Stock<P> + Drop + Sync,
    P: Programs<M> + Drop + Send + Sync,
    M: Runner + Sync,
    N: Keeper<LinkOf<W>> + Send + Sync,
    X: Sign + Sync,
>(
    rt: &R,
    alloc: Global,
    order: &ServeOptions,
    boot: Boot,
    stock: F,
    gate: &G,
    world: &mut W,
    operators: &mut V,
    vmods: Shared<VmodTable>,
    sign: &X,
) -> Result<Came<N>, Status>
where
    W::Listener: Send,
    W::Dialer: Sync,
    W::Clock: Sync,
    <W::Dialer as Dialer>::Link: Send,
    M::Program: Drop + Send + Sync,
    V::Listener: Send,
    V::Dialer: Sync,
    V::Clock: Sync,
    LinkOf<V>: Send,
    <V::Dialer as Dialer>::Link: Send,
    ensures ran { IfOk result (λ o. Ran (IsUnused W.Dialer.talks W.Dialer.dial_faults W.Dialer.read_faults W.Dialer.write_faults W.Clock.readings W.Clock.words) N.Told (λ events. places_of events)
        (λ began seen number first last opening events. Tells (language_of P.of_text M.turns M.targets M.default_of P.backends) (told_by W.Dialer.Link.flow W.Dialer.Link.read_faults W.Dialer.Link.write_faults W.Dialer.Link.peer W.Dialer.Link.is_open)
        (told_by W.Listener.Link.flow W.Listener.Link.read_faults W.Listener.Link.write_faults W.Listener.Link.peer W.Listener.Link.is_open) W.Dialer.talks W.Dialer.dial_faults W.Clock.readings W.Clock.words began seen number first last opening events)
        (beginning_of (limits_of order.now) boot) o.history (W.kits world.old) (W.kits world.new) o.keepers.items o.connections (places_of_talks o.console.items)) }
    ensures operated { IfOk result (λ o. MayOperate vmods.stored (V.files operators.old) (told_by V.Listener.Link.flow V.Listener.Link.read_faults V.Listener.Link.write_faults V.Listener.Link.peer V.Listener.Link.is_open) V.Clock.readings
        (beginning_of (limits_of order.now) boot) o.history order.now.cli
        (record { links = V.links operators.old; kits = V.kits operators.old; given = V.given operators.old; shelf_faults = V.shelf_faults operators.old })
        (record { links = V.links operators.new; kits = V.kits operators.new; given = V.given operators.new; shelf_faults = V.shelf_faults operators.new }) o.console.items) }
    ensures stopped { IfOk result (λ o. Stopped o.reason order.now.conns o.connections (W.ended world.new) (W.listen_faults world.old) (W.listen_faults world.new)) }
    ensures within { IfOk result (λ o. o.connections ≤ order.now.conns) }
    ensures given { IfOk result (λ o. W.given world.new ≡ joined_count (W.given world.old) o.connections) }
    ensures halted { IfErr result (Halts (Rose (W.listen_faults world.old) (W.listen_faults world.new) ⊎ Rose (V.listen_faults operators.old) (V.listen_faults operators.new))) }
    ensures nobody { IfErr result (λ _. (W.kits world.new ≡ W.kits world.old) × (W.given world.new ≡ W.given world.old)) }
    ensures unoperated { IfErr result (λ _. (V.links operators.new ≡ V.links operators.old) × (V.kits operators.new ≡ V.kits operators.old) × (V.given operators.new ≡ V.given operators.old) × (V.shelf_faults operators.new ≡ V.shelf_faults operators.old)) }
    ensures links { W.links world.new ≡ W.links world.old }
    ensures kept { W.kept world.new ≡ W.kept world.old }
    ensures ports { MayAdd (W.ports world.old) (W.ports world.new) order.now.port }
    ensures console_ports { MayAskFor (V.ports operators.old) (V.ports operators.new) order.now.cli }
{
    let params = Params {
        room: order.room,
        history: order.history,
        segments: false,
    };
    let Ok(core) = LazyCore::make(alloc, &params, boot) else {
        return Err(Status::NoMemory);
    };
    let console = console_at(operators, order.cli, vmods)?;
    let Ok(listener) = world.listen(order.port) else {
        return Err(Status::ListenFault);
    };
    let host = Steering::<'_, W::Dialer, W::Clock, G, F, P, M, N>::new(alloc, stock, gate);
    let (workers, most) = (order.workers, u64::from(order.conns));
    match serve_all(
        rt, alloc, core, &host, world, listener, workers, most, console, sign,
    ) {
        Some(outcome) => Ok(close_run(alloc, outcome, operators)),
        None => Err(Status::NoMemory),
    }
}
