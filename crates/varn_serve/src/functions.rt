// A server with the stored functions that the program has.
ghost use Rattle.std.specs.Prelude.{◌≡◌, ◌≤◌, ◌⊎◌, IfOk, OnErr};
ghost use Rattle.crew.specs.Hiring.{IsUnused};
ghost use Rattle.wire.specs.Telling.{told_by};
ghost use Rattle.vcl_library.specs.Functions.{std_functions};
ghost use Rattle.wire.specs.Causes.{Rose};
ghost use Rattle.world.specs.Keeping.{MayAdd};
ghost use Rattle.console_job.specs.Operating.{MayOperate};
ghost use Rattle.varn_serve.specs.Run.{CameTo, EndsAs, GaveFor, IsComplete, MayAskFor, RanBy, found_full, is_full_status};

use crate::ending::{Served, Status};
use crate::programs::{SharedPrograms, stocked_boot};
use crate::running::{LinkOf, finished, serve_stocked, stopped, unbooted};
use command_line::ServeOptions;
use crew::Sign;
use server::Keeper;
use std::alloc::{AllocError, Global};
use std::sync::Wait;
use std::thread::Threads;
use units::Shared;
use vcl_library::{Library, std_answer, std_vmods};
use vcl_runner::Run;
use wire::{Dialer, Sink};
use world::{Gate, World};

// The run, or want of memory for the table.
fn try_serve<
    R: Threads + Wait + Sync,
    W: World + Send,
    V: World + Send,
    G: Gate + Sync,
    S: Sink,
    N: Keeper<LinkOf<W>> + Send + Sync,
    X: Sign + Sync,
>(
    rt: &R,
    alloc: Global,
    order: &ServeOptions,
    world: &mut W,
    operators: &mut V,
    gate: &G,
    sign: &X,
    sink: &mut S,
) -> Result<Served<N>, AllocError>
where
    W::Listener: Send,
    W::Dialer: Sync,
    W::Clock: Sync,
    <W::Dialer as Dialer>::Link: Send,
    V::Listener: Send,
    V::Dialer: Sync,
    V::Clock: Sync,
    LinkOf<V>: Send,
    <V::Dialer as Dialer>::Link: Send,
    ensures came { IfOk result (λ served. CameTo (RanBy (IsUnused W.Dialer.talks W.Dialer.dial_faults W.Dialer.read_faults W.Dialer.write_faults W.Clock.readings W.Clock.words)
        (told_by W.Dialer.Link.flow W.Dialer.Link.read_faults W.Dialer.Link.write_faults W.Dialer.Link.peer W.Dialer.Link.is_open) W.Dialer.talks W.Dialer.dial_faults W.Clock.readings W.Clock.words (told_by W.Listener.Link.flow W.Listener.Link.read_faults W.Listener.Link.write_faults W.Listener.Link.peer W.Listener.Link.is_open) N.Told
        (W.kits world.old) (W.kits world.new))
        (W.kits world.old) (W.kits world.new)
        (λ began history port before after talks. MayOperate std_functions (V.files operators.old) (told_by V.Listener.Link.flow V.Listener.Link.read_faults V.Listener.Link.write_faults V.Listener.Link.peer V.Listener.Link.is_open) V.Clock.readings began history port before after talks)
        (record { links = V.links operators.old; kits = V.kits operators.old; given = V.given operators.old; shelf_faults = V.shelf_faults operators.old })
        (record { links = V.links operators.new; kits = V.kits operators.new; given = V.given operators.new; shelf_faults = V.shelf_faults operators.new })
        (W.files world.old) std_functions order.now served) }
    ensures ends { IfOk result (λ served. EndsAs (record {
      read_failed = Rose (W.shelf_faults world.old) (W.shelf_faults world.new);
      listen_failed = Rose (W.listen_faults world.old) (W.listen_faults world.new) ⊎ Rose (V.listen_faults operators.old) (V.listen_faults operators.new);
      write_failed = Rose (S.faults sink.old) (S.faults sink.new);
      ended = W.ended world.new;
      held = S.held sink.old;
      holds = S.held sink.new;
    }) (W.files world.old) std_functions order.now served served.status) }
    ensures within { IfOk result (λ served. served.connections ≤ order.now.conns) }
    ensures given { IfOk result (λ served. GaveFor (W.given world.old) (W.given world.new) served.connections) }
    ensures full { IfOk result (λ served. is_full_status served.status ≡ found_full served) }
    ensures ports { IfOk result (λ served. MayAdd (W.ports world.old) (W.ports world.new) order.now.port) }
    ensures console_ports { IfOk result (λ served. MayAskFor (V.ports operators.old) (V.ports operators.new) order.now.cli) }
    ensures unchanged { OnErr result ((world.new ≡ world.old) × (operators.new ≡ operators.old) × (sink.new ≡ sink.old)) }
{
    let vmods = Shared::new(alloc, std_vmods(alloc, std_answer)?)?;
    let functions = vmods.copy()?;
    let (boot, stock) = match stocked_boot(alloc, world, &order.file, vmods) {
        Ok(stocked) => stocked,
        Err(error) => return Ok(unbooted(alloc, error)),
    };
    match serve_stocked::<R, W, V, G, SharedPrograms, Library, Run, N, X>(
        rt, alloc, order, boot, stock, gate, world, operators, functions, sign,
    ) {
        Ok(came) => Ok(finished::<LinkOf<W>, N, S>(alloc, came, sink)),
        Err(status) => Ok(stopped(alloc, status, None)),
    }
}

/// Serves connections as the order says, and writes how many rounds they had. Beside the workers a console serves operators, who come in
/// at the second world, where the order names a port for it. The sign is raised once the workers have left. The texts of VCL may call the
/// functions of the modules `std` and `cookie`. The call may wait for good.
pub fn serve_with_std<
    R: Threads + Wait + Sync,
    W: World + Send,
    V: World + Send,
    G: Gate + Sync,
    S: Sink,
    N: Keeper<LinkOf<W>> + Send + Sync,
    X: Sign + Sync,
>(
    rt: &R,
    alloc: Global,
    order: &ServeOptions,
    world: &mut W,
    operators: &mut V,
    gate: &G,
    sign: &X,
    sink: &mut S,
) -> Served<N>
where
    W::Listener: Send,
    W::Dialer: Sync,
    W::Clock: Sync,
    <W::Dialer as Dialer>::Link: Send,
    V::Listener: Send,
    V::Dialer: Sync,
    V::Clock: Sync,
    LinkOf<V>: Send,
    <V::Dialer as Dialer>::Link: Send,
    ensures came { CameTo (RanBy (IsUnused W.Dialer.talks W.Dialer.dial_faults W.Dialer.read_faults W.Dialer.write_faults W.Clock.readings W.Clock.words)
        (told_by W.Dialer.Link.flow W.Dialer.Link.read_faults W.Dialer.Link.write_faults W.Dialer.Link.peer W.Dialer.Link.is_open) W.Dialer.talks W.Dialer.dial_faults W.Clock.readings W.Clock.words (told_by W.Listener.Link.flow W.Listener.Link.read_faults W.Listener.Link.write_faults W.Listener.Link.peer W.Listener.Link.is_open) N.Told
        (W.kits world.old) (W.kits world.new))
        (W.kits world.old) (W.kits world.new)
        (λ began history port before after talks. MayOperate std_functions (V.files operators.old) (told_by V.Listener.Link.flow V.Listener.Link.read_faults V.Listener.Link.write_faults V.Listener.Link.peer V.Listener.Link.is_open) V.Clock.readings began history port before after talks)
        (record { links = V.links operators.old; kits = V.kits operators.old; given = V.given operators.old; shelf_faults = V.shelf_faults operators.old })
        (record { links = V.links operators.new; kits = V.kits operators.new; given = V.given operators.new; shelf_faults = V.shelf_faults operators.new })
        (W.files world.old) std_functions order.now result }
    ensures ends { EndsAs (record {
      read_failed = Rose (W.shelf_faults world.old) (W.shelf_faults world.new);
      listen_failed = Rose (W.listen_faults world.old) (W.listen_faults world.new) ⊎ Rose (V.listen_faults operators.old) (V.listen_faults operators.new);
      write_failed = Rose (S.faults sink.old) (S.faults sink.new);
      ended = W.ended world.new;
      held = S.held sink.old;
      holds = S.held sink.new;
    }) (W.files world.old) std_functions order.now result result.status }
    ensures complete { IsComplete (record {
      read_failed = Rose (W.shelf_faults world.old) (W.shelf_faults world.new);
      listen_failed = Rose (W.listen_faults world.old) (W.listen_faults world.new) ⊎ Rose (V.listen_faults operators.old) (V.listen_faults operators.new);
      write_failed = Rose (S.faults sink.old) (S.faults sink.new);
      ended = W.ended world.new;
      held = S.held sink.old;
      holds = S.held sink.new;
    }) (W.files world.old) std_functions order.now result }
    ensures within { result.connections ≤ order.now.conns }
    ensures given { GaveFor (W.given world.old) (W.given world.new) result.connections }
    ensures full { is_full_status result.status ≡ found_full result }
    ensures ports { MayAdd (W.ports world.old) (W.ports world.new) order.now.port }
    ensures console_ports { MayAskFor (V.ports operators.old) (V.ports operators.new) order.now.cli }
{
    match try_serve(rt, alloc, order, world, operators, gate, sign, sink) {
        Ok(served) => served,
        Err(_) => stopped(alloc, Status::NoMemory, None),
    }
}
