// What a round wants, done once.
ghost use Rattle.std.specs.Prelude.{◌≡◌, ◌≢◌, ◌≤◌, List, ℕ, Option, true, false, IfOk, IfErr};
ghost use Rattle.wire.specs.Causes.{Rose};
ghost use Rattle.wire.specs.Flow.{Flow};
ghost use Rattle.wire.specs.Telling.{told_by};
ghost use Rattle.http_heads.specs.declared.exchange.Backend.{Backend as Server};
ghost use Rattle.turnstile.specs.Handles.{known};
ghost use Rattle.shared_cache.specs.Passes.{IsPassOf};
ghost use Rattle.round_lead.specs.Seen.{has_open};
ghost use Rattle.round_lead.specs.Steps.{CanClose, stood};
ghost use Rattle.round_lead.specs.Onward.{Fails, Gives, is_last};

use crate::calling::call_on;
use crate::cut::{Cut, cut_at};
use crate::exchanging::exchange_on;
use crate::keeping::Progress;
use crate::sending::send_on;
use crate::{Shift, Site};
use cache_law::rounds::Given;
use cache_law::{CacheCore, Call};
use http_heads::BackendRequest;
use round_task::Want;
use std::sync::Wait;
use units::Text;
use vcl_runs::{Programs, Runner};
use wire::{Clock, Dialer, Link};
use world::Gate;

// A call of the cache is made.
fn answer_call<R: Wait, C: CacheCore, G: Gate, D: Dialer, K: Clock, P>(
    site: &Site<'_, R, C, G>,
    shift: &mut Shift<D, K, P>,
    progress: &mut Progress,
    call: Call,
) -> Result<Given, Cut>
    requires pass { IsPassOf site.now.shared.now shift.old.pass }
    requires opened { has_open (known shift.old.pass) ≡ true }
    requires is_open { progress.old.is_open ≡ true }
    requires room { CanClose progress.old }
    requires goes_on { is_last (Want.Cache call) ≡ false }
    ensures given { IfOk result (λ given. (over : Option Flow) (backends : List ℕ → Server)
        → Gives (told_by D.Link.flow D.Link.read_faults D.Link.write_faults D.Link.peer D.Link.is_open) backends (stood D.talks D.dial_faults K.readings K.words shift.old over progress.old) (stood D.talks D.dial_faults K.readings K.words shift.new over progress.new) (Want.Cache call) given) }
    ensures cut { IfErr result (λ cut. (over : Option Flow) (backends : List ℕ → Server)
        → Fails (told_by D.Link.flow D.Link.read_faults D.Link.write_faults D.Link.peer D.Link.is_open) backends (stood D.talks D.dial_faults K.readings K.words shift.old over progress.old) (stood D.talks D.dial_faults K.readings K.words shift.new over progress.new) (Want.Cache call) cut) }
    ensures not_written { IfErr result (λ cut. cut ≢ Cut.WriteFault) }
    ensures pass { IsPassOf site.now.shared.now shift.new.pass }
    ensures opened { has_open (known shift.new.pass) ≡ true }
    ensures is_open { progress.new.is_open ≡ true }
    ensures room { CanClose progress.new }
{
    match call_on(site, &mut shift.pass, &mut shift.kit.clock, progress, call) {
        Ok(told) => Ok(Given::Reply(told)),
        Err(error) => Err(cut_at(error)),
    }
}

// An exchange is made with the backend of that name.
fn answer_exchange<R, C: CacheCore, G: Gate, D: Dialer, K: Clock, P: Programs<M>, M: Runner>(
    site: &Site<'_, R, C, G>,
    shift: &mut Shift<D, K, P>,
    progress: &mut Progress,
    program: &M::Program,
    name: &Text,
    request: &BackendRequest,
) -> Result<Given, Cut>
    requires room { CanClose progress.old }
    ensures given { IfOk result (λ given. (over : Option Flow) (number : ℕ)
        → Gives (told_by D.Link.flow D.Link.read_faults D.Link.write_faults D.Link.peer D.Link.is_open) (P.backends program.now) (stood D.talks D.dial_faults K.readings K.words shift.old over progress.old) (stood D.talks D.dial_faults K.readings K.words shift.new over progress.new) (Want.Exchange number name.now request.now) given) }
    ensures cut { IfErr result (λ cut. (over : Option Flow) (number : ℕ)
        → Fails (told_by D.Link.flow D.Link.read_faults D.Link.write_faults D.Link.peer D.Link.is_open) (P.backends program.now) (stood D.talks D.dial_faults K.readings K.words shift.old over progress.old) (stood D.talks D.dial_faults K.readings K.words shift.new over progress.new) (Want.Exchange number name.now request.now) cut) }
    ensures not_written { IfErr result (λ cut. cut ≢ Cut.WriteFault) }
    ensures pass { shift.new.pass ≡ shift.old.pass }
    ensures is_open { progress.new.is_open ≡ progress.old.is_open }
    ensures room { CanClose progress.new }
{
    let backend = match P::backend(site.alloc, program, name) {
        Ok(backend) => backend,
        Err(_) => return Err(Cut::NoMemory),
    };
    let limits = P::waiting(program, name);
    let caller = shift.pass.number();
    match exchange_on(
        site,
        caller,
        &mut shift.kit,
        progress,
        limits,
        &backend,
        request,
    ) {
        Ok(got) => Ok(Given::Exchange(got)),
        Err(_) => Err(Cut::NoMemory),
    }
}

/// What the round wants is done, and what it is given for that. It isn't its End.
pub(crate) fn answer<
    R: Wait,
    C: CacheCore,
    G: Gate,
    D: Dialer,
    K: Clock,
    P: Programs<M>,
    M: Runner,
    L: Link,
>(
    site: &Site<'_, R, C, G>,
    shift: &mut Shift<D, K, P>,
    link: &mut L,
    progress: &mut Progress,
    program: &M::Program,
    want: Want,
) -> Result<Given, Cut>
    requires pass { IsPassOf site.now.shared.now shift.old.pass }
    requires opened { has_open (known shift.old.pass) ≡ true }
    requires is_open { progress.old.is_open ≡ true }
    requires room { CanClose progress.old }
    requires goes_on { is_last want ≡ false }
    ensures given { IfOk result (Gives (told_by D.Link.flow D.Link.read_faults D.Link.write_faults D.Link.peer D.Link.is_open) (P.backends program.now) (stood D.talks D.dial_faults K.readings K.words shift.old (L.flow link.old) progress.old) (stood D.talks D.dial_faults K.readings K.words shift.new (L.flow link.new) progress.new) want) }
    ensures cut { IfErr result (Fails (told_by D.Link.flow D.Link.read_faults D.Link.write_faults D.Link.peer D.Link.is_open) (P.backends program.now) (stood D.talks D.dial_faults K.readings K.words shift.old (L.flow link.old) progress.old) (stood D.talks D.dial_faults K.readings K.words shift.new (L.flow link.new) progress.new) want) }
    ensures pass { IsPassOf site.now.shared.now shift.new.pass }
    ensures opened { has_open (known shift.new.pass) ≡ true }
    ensures is_open { progress.new.is_open ≡ true }
    ensures room { CanClose progress.new }
    ensures failed { IfErr result (λ cut. cut ≡ Cut.WriteFault → Rose (L.write_faults link.old) (L.write_faults link.new)) }
    ensures later { L.write_faults link.old ≤ L.write_faults link.new }
    ensures other { L.read_faults link.new ≡ L.read_faults link.old }
    ensures peer { L.peer link.new ≡ L.peer link.old }
{
    match want {
        Want::Cache(call) => answer_call(site, shift, progress, call),
        Want::Exchange {
            number: _,
            backend,
            request,
        } => answer_exchange(site, shift, progress, program, &backend, &request),
        Want::Send(delivery) => match send_on(site.alloc, link, progress, &delivery) {
            Ok(()) => Ok(Given::Sent),
            Err(cut) => Err(cut),
        },
        // A round goes on to its End, so this doesn't come.
        Want::Done => Err(Cut::NoMemory),
    }
}
