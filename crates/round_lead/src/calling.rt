// One call of the shared cache.
ghost use Rattle.std.specs.Prelude.{◌≡◌, ◌<◌, ℕ, true, false, length, IfOk, IfErr, OnOk, OnErr, IsOk, MatchResult};
ghost use Rattle.std.specs.Vec.{vec_capacity};
ghost use Rattle.wire.specs.Tapes.{Tells};
ghost use Rattle.cache_law.specs.declared.cache.Told.{Told as Answered};
ghost use Rattle.turnstile.specs.Handles.{known};
ghost use Rattle.turnstile.specs.Knowledge.{saw};
ghost use Rattle.shared_cache.specs.Passes.{IsPassOf};
ghost use Rattle.shared_cache.specs.Sharing.{Called, Declined, SeesLegal};
ghost use Rattle.round_lead.specs.Seen.{has_open, opened_by};
ghost use Rattle.round_lead.specs.Steps.{CanClose, Declines, Makes};

use crate::Site;
use crate::keeping::Progress;
use cache_law::{CacheCore, Call, StepError, Told};
use shared_cache::CachePass;
use std::sync::Wait;
use wire::Clock;
use world::{Gate, Place};

// One call by the pass. The End of an open round isn't declined.
fn ask<R: Wait, C: CacheCore, G: Gate, K: Clock>(
    site: &Site<'_, R, C, G>,
    pass: &mut CachePass,
    clock: &mut K,
    call: Call,
) -> Result<Told, StepError>
    requires pass { IsPassOf site.now.shared.now pass.old }
    ensures pass { IsPassOf site.now.shared.now pass.new × (known pass.new ≡ saw (known pass.old) (known pass.new).seen) }
    ensures answer { (reading : ℕ) × Tells (K.readings clock.old) (K.readings clock.new) reading
        × MatchResult result (Called (known pass.old) (known pass.new) reading call) (Declined (known pass.old) (known pass.new) reading call) }
    ensures legal { SeesLegal (known pass.new) }
    ensures words { K.words clock.new ≡ K.words clock.old }
    ensures opened { OnOk result (has_open (known pass.new) ≡ opened_by call true (has_open (known pass.old))) }
    ensures declined { OnErr result (has_open (known pass.new) ≡ has_open (known pass.old)) }
    ensures closes { call ≡ Call.End → has_open (known pass.old) ≡ true → IsOk result }
{
    let caller = pass.number();
    site.gate.point(caller, Place::Called);
    let answer = site.shared.call(site.rt, site.alloc, pass, clock, call);
    site.gate.point(caller, Place::Answered);
    answer
}

// Whether a caller's round is open behind its call.
fn opens(call: &Call, before: bool) -> bool
    ensures { result ≡ opened_by call.now true before }
{
    match call {
        Call::Begin => true,
        Call::End => false,
        _ => before,
    }
}

// A call that isn't made, for want of memory.
fn unasked(call: Call) -> StepError
    ensures { result ≡ StepError.NoMemory }
{
    StepError::NoMemory
}

/// One call, whose place is kept. There is room left for the place of the round's End.
pub(crate) fn call_on<R: Wait, C: CacheCore, G: Gate, K: Clock>(
    site: &Site<'_, R, C, G>,
    pass: &mut CachePass,
    clock: &mut K,
    progress: &mut Progress,
    call: Call,
) -> Result<Told, StepError>
    requires pass { IsPassOf site.now.shared.now pass.old }
    requires opened { has_open (known pass.old) ≡ progress.old.is_open }
    requires room { CanClose progress.old }
    ensures pass { IsPassOf site.now.shared.now pass.new }
    ensures made { IfOk result (Makes (known pass.old) (known pass.new) (K.readings clock.old) (K.readings clock.new) progress.old progress.new call) }
    ensures declined { IfErr result (Declines (known pass.old) (known pass.new) (K.readings clock.old) (K.readings clock.new) progress.old progress.new call) }
    ensures legal { SeesLegal (known pass.old) → SeesLegal (known pass.new) }
    ensures words { K.words clock.new ≡ K.words clock.old }
    ensures opened { has_open (known pass.new) ≡ progress.new.is_open }
    ensures opens { OnOk result (progress.new.is_open ≡ opened_by call true progress.old.is_open) }
    ensures stays { OnErr result (progress.new.is_open ≡ progress.old.is_open) }
    ensures room { CanClose progress.new }
{
    if progress.numbers.reserve(2).is_err() {
        return Err(unasked(call));
    }
    let is_open = opens(&call, progress.is_open);
    let told = match ask(site, pass, clock, call) {
        Ok(told) => told,
        Err(error) => return Err(error),
    };
    progress.numbers.push_reserved(told.place);
    progress.is_open = is_open;
    Ok(told)
}

/// Ends the caller's open round. It takes no memory.
pub(crate) fn close<R: Wait, C: CacheCore, G: Gate, K: Clock>(
    site: &Site<'_, R, C, G>,
    pass: &mut CachePass,
    clock: &mut K,
    progress: &mut Progress,
)
    requires pass { IsPassOf site.now.shared.now pass.old }
    requires opened { has_open (known pass.old) ≡ true }
    requires room { length progress.old.numbers.items < vec_capacity progress.old.numbers }
    ensures pass { IsPassOf site.now.shared.now pass.new }
    ensures made { (told : Answered) × Makes (known pass.old) (known pass.new) (K.readings clock.old) (K.readings clock.new) progress.old progress.new Call.End told }
    ensures legal { SeesLegal (known pass.new) }
    ensures words { K.words clock.new ≡ K.words clock.old }
    ensures shut { has_open (known pass.new) ≡ false }
    ensures is_shut { progress.new.is_open ≡ false }
{
    match ask(site, pass, clock, Call::End) {
        Ok(told) => {
            progress.numbers.push_reserved(told.place);
            progress.is_open = false;
        }
        Err(_) => unreachable!(),
    }
}
