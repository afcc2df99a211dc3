// A round from its Begin to where its End is wanted.
ghost use Rattle.std.specs.Prelude.{◌≡◌, ◌≤◌, true, false, IfOk, IfErr, OnOk};
ghost use Rattle.wire.specs.Causes.{Rose};
ghost use Rattle.wire.specs.Telling.{told_by};
ghost use Rattle.turnstile.specs.Handles.{known};
ghost use Rattle.shared_cache.specs.Passes.{IsPassOf};
ghost use Rattle.cache_law.specs.declared.call.Call.TheVariants.{End};
ghost use Rattle.vcl_runs.specs.Evaluators.{evaluator};
ghost use Rattle.round_task.specs.declared.place.Place.{Place as RoundPlace};
ghost use Rattle.round_task.specs.Standing.{MayGoOn};
ghost use Rattle.round_lead.specs.Seen.{has_open};
ghost use Rattle.round_lead.specs.Steps.{CanClose, stood};
ghost use Rattle.round_lead.specs.Onward.{Goes, Stops, is_last};

use crate::answering::answer;
use crate::cut::Cut;
use crate::keeping::Progress;
use crate::{Shift, Site};
use cache_law::{CacheCore, Call};
use round_task::{Round as Machine, Want};
use std::mem;
use std::sync::Wait;
use vcl_runs::{Programs, Runner};
use wire::{Clock, Dialer, Link};
use world::Gate;

// Whether the round's end is wanted.
fn is_end(want: &Want) -> bool
    ensures { result ≡ is_last want.now }
{
    match want {
        Want::Cache(Call::End) => true,
        _ => false,
    }
}

// What the round wants is done, and it is asked what it wants then.
fn ask_next<
    R: Wait,
    C: CacheCore,
    G: Gate,
    D: Dialer,
    K: Clock,
    P: Programs<M>,
    M: Runner,
    L: Link,
>(
    site: &Site<'_, R, C, G>,
    shift: &mut Shift<D, K, P>,
    link: &mut L,
    progress: &mut Progress,
    machine: &mut Machine<M>,
    program: &M::Program,
    want: Want,
) -> Result<Want, Cut>
    requires pass { IsPassOf site.now.shared.now shift.old.pass }
    requires opened { has_open (known shift.old.pass) ≡ true }
    requires is_open { progress.old.is_open ≡ true }
    requires room { CanClose progress.old }
    requires may { MayGoOn (λ run ran. M.stands run program.now ran) M.fits machine.old.place }
    requires goes_on { is_last want ≡ false }
    ensures goes { IfOk result (Goes (evaluator M.turns M.targets M.default_of program.now) (λ run ran. M.stands run program.now ran) M.fits (told_by D.Link.flow D.Link.read_faults D.Link.write_faults D.Link.peer D.Link.is_open) (P.backends program.now)
        machine.old.place want (stood D.talks D.dial_faults K.readings K.words shift.old (L.flow link.old) progress.old) (stood D.talks D.dial_faults K.readings K.words shift.new (L.flow link.new) progress.new) machine.new.place) }
    ensures stops { IfErr result (Stops (evaluator M.turns M.targets M.default_of program.now) (λ run ran. M.stands run program.now ran) M.fits (told_by D.Link.flow D.Link.read_faults D.Link.write_faults D.Link.peer D.Link.is_open) (P.backends program.now)
        machine.old.place want (stood D.talks D.dial_faults K.readings K.words shift.old (L.flow link.old) progress.old) (stood D.talks D.dial_faults K.readings K.words shift.new (L.flow link.new) progress.new)) }
    ensures may { OnOk result (MayGoOn (λ run ran. M.stands run program.now ran) M.fits machine.new.place) }
    ensures pass { IsPassOf site.now.shared.now shift.new.pass }
    ensures opened { has_open (known shift.new.pass) ≡ true }
    ensures is_open { progress.new.is_open ≡ true }
    ensures room { CanClose progress.new }
    ensures failed { IfErr result (λ cut. cut ≡ Cut.WriteFault → Rose (L.write_faults link.old) (L.write_faults link.new)) }
    ensures later { L.write_faults link.old ≤ L.write_faults link.new }
    ensures other { L.read_faults link.new ≡ L.read_faults link.old }
    ensures peer { L.peer link.new ≡ L.peer link.old }
{
    let given = match answer(site, shift, link, progress, program, want) {
        Ok(given) => given,
        Err(cut) => return Err(cut),
    };
    let word = shift.kit.clock.word();
    match machine.resume(site.alloc, program, Some(word), given) {
        Ok(next) => Ok(next),
        Err(_) => Err(Cut::NoMemory),
    }
}

// The same, with what it wants in its place.
fn advance<R: Wait, C: CacheCore, G: Gate, D: Dialer, K: Clock, P: Programs<M>, M: Runner, L: Link>(
    site: &Site<'_, R, C, G>,
    shift: &mut Shift<D, K, P>,
    link: &mut L,
    progress: &mut Progress,
    machine: &mut Machine<M>,
    program: &M::Program,
    want: &mut Want,
) -> Result<(), Cut>
    requires pass { IsPassOf site.now.shared.now shift.old.pass }
    requires opened { has_open (known shift.old.pass) ≡ true }
    requires is_open { progress.old.is_open ≡ true }
    requires room { CanClose progress.old }
    requires may { MayGoOn (λ run ran. M.stands run program.now ran) M.fits machine.old.place }
    requires goes_on { is_last want.old ≡ false }
    ensures goes { OnOk result (Goes (evaluator M.turns M.targets M.default_of program.now) (λ run ran. M.stands run program.now ran) M.fits (told_by D.Link.flow D.Link.read_faults D.Link.write_faults D.Link.peer D.Link.is_open) (P.backends program.now)
        machine.old.place want.old (stood D.talks D.dial_faults K.readings K.words shift.old (L.flow link.old) progress.old) (stood D.talks D.dial_faults K.readings K.words shift.new (L.flow link.new) progress.new) machine.new.place want.new) }
    ensures stops { IfErr result (Stops (evaluator M.turns M.targets M.default_of program.now) (λ run ran. M.stands run program.now ran) M.fits (told_by D.Link.flow D.Link.read_faults D.Link.write_faults D.Link.peer D.Link.is_open) (P.backends program.now)
        machine.old.place want.old (stood D.talks D.dial_faults K.readings K.words shift.old (L.flow link.old) progress.old) (stood D.talks D.dial_faults K.readings K.words shift.new (L.flow link.new) progress.new)) }
    ensures may { OnOk result (MayGoOn (λ run ran. M.stands run program.now ran) M.fits machine.new.place) }
    ensures pass { IsPassOf site.now.shared.now shift.new.pass }
    ensures opened { has_open (known shift.new.pass) ≡ true }
    ensures is_open { progress.new.is_open ≡ true }
    ensures room { CanClose progress.new }
    ensures failed { IfErr result (λ cut. cut ≡ Cut.WriteFault → Rose (L.write_faults link.old) (L.write_faults link.new)) }
    ensures later { L.write_faults link.old ≤ L.write_faults link.new }
    ensures other { L.read_faults link.new ≡ L.read_faults link.old }
    ensures peer { L.peer link.new ≡ L.peer link.old }
{
    let wanted = mem::replace(want, Want::Done);
    match ask_next(site, shift, link, progress, machine, program, wanted) {
        Ok(next) => {
            *want = next;
            Ok(())
        }
        Err(cut) => Err(cut),
    }
}

/// The round goes on to where its End is wanted, or stops before.
pub(crate) fn follow<
    R: Wait,
    C: CacheCore,
    G: Gate,
    D: Dialer,
    K: Clock,
    P: Programs<M>,
    M: Runner,
    L: Link,
>(
    site: &Site<'_, R, C, G>,
    shift: &mut Shift<D, K, P>,
    link: &mut L,
    progress: &mut Progress,
    machine: &mut Machine<M>,
    program: &M::Program,
    want: &mut Want,
) -> Result<(), Cut>
    requires pass { IsPassOf site.now.shared.now shift.old.pass }
    requires opened { has_open (known shift.old.pass) ≡ true }
    requires is_open { progress.old.is_open ≡ true }
    requires room { CanClose progress.old }
    requires may { MayGoOn (λ run ran. M.stands run program.now ran) M.fits machine.old.place }
    ensures whole { OnOk result ((place : RoundPlace M) × Goes (evaluator M.turns M.targets M.default_of program.now) (λ run ran. M.stands run program.now ran) M.fits (told_by D.Link.flow D.Link.read_faults D.Link.write_faults D.Link.peer D.Link.is_open) (P.backends program.now)
        machine.old.place want.old (stood D.talks D.dial_faults K.readings K.words shift.old (L.flow link.old) progress.old) (stood D.talks D.dial_faults K.readings K.words shift.new (L.flow link.new) progress.new) place (Want.Cache End)) }
    ensures stops { IfErr result (Stops (evaluator M.turns M.targets M.default_of program.now) (λ run ran. M.stands run program.now ran) M.fits (told_by D.Link.flow D.Link.read_faults D.Link.write_faults D.Link.peer D.Link.is_open) (P.backends program.now)
        machine.old.place want.old (stood D.talks D.dial_faults K.readings K.words shift.old (L.flow link.old) progress.old) (stood D.talks D.dial_faults K.readings K.words shift.new (L.flow link.new) progress.new)) }
    ensures pass { IsPassOf site.now.shared.now shift.new.pass }
    ensures opened { has_open (known shift.new.pass) ≡ true }
    ensures is_open { progress.new.is_open ≡ true }
    ensures room { CanClose progress.new }
    ensures failed { IfErr result (λ cut. cut ≡ Cut.WriteFault → Rose (L.write_faults link.old) (L.write_faults link.new)) }
    ensures later { L.write_faults link.old ≤ L.write_faults link.new }
    ensures other { L.read_faults link.new ≡ L.read_faults link.old }
    ensures peer { L.peer link.new ≡ L.peer link.old }
{
    'wants: for _ in site.rt.forever() {
        if is_end(want) {
            return Ok(());
        }
        match advance(site, shift, link, progress, machine, program, want) {
            Ok(()) => {}
            Err(cut) => return Err(cut),
        }
    }
    unreachable!()
}
