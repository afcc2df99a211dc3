// The shared cache and its calls.
ghost use Rattle.std.specs.Prelude.{◌≡◌, ◌<◌, [], IfOk, IfErr, IfSome, MatchResult, ℕ, Some, true};
ghost use Rattle.cache_law.specs.History.{HasWaited, reached};
ghost use Rattle.wire.specs.Tapes.{Tells};

use crate::kept::{Kept, Origin};
use cache_law::{CacheCore, Call, Entry, StepError, Told};
use std::alloc::Global;
use std::sync::Wait;
use turnstile::{Held, Pass, Returned, Turnstile};
use units::Sequence;
use wire::Clock;

/// The right to make calls under one number.
pub type CachePass = Pass<Entry, Origin>;

/// A cache that threads share by reference, each with a pass of its own.
#[derive(Drop)]
pub struct SharedCache<C: CacheCore> {
    pub(crate) lock: Turnstile<Kept<C>>,
}

impl<C: CacheCore> SharedCache<C> {
    ghost use Rattle.turnstile.specs.Knowledge.{opened, saw, cut_off, branch, merged, Grown, Meets};
    ghost use Rattle.cache_law.specs.State.{is_closed};
    ghost use Rattle.turnstile.specs.Handles.{known, held_known, number_of, IsHeldOf};
    ghost use Rattle.shared_cache.specs.Passes.{IsPassOf};
    ghost use Rattle.shared_cache.specs.Sharing.{caller_of, IsKeptWhole, IsShared, SeesLegal, Called, Declined};

    /// Shares a cache, which has no entry yet and keeps no segments, and gives the first pass, under the number `first`, with every number above
    /// it to give. So many entries of the run were made before: places are told behind these. For want of memory the cache
    /// comes back.
    pub fn open(
        alloc: Global,
        core: C,
        first: u32,
        from: u64,
    ) -> Result<(SharedCache<C>, CachePass), Returned<C>>
        requires empty { C.history core ≡ [] }
        requires whole { IsKeptWhole (C.beginning core) [] }
        requires from { from ≡ (C.beginning core).base.entries }
        ensures pass { IfOk result (λ r. IsPassOf r.0 r.1 × (known r.1 ≡ opened first (C.beginning core))) }
        ensures err { IfErr result (λ r. r.value ≡ core) }
    {
        match Turnstile::new(alloc, Kept { core, from }, first) {
            Ok((lock, pass)) => Ok((SharedCache { lock }, pass)),
            Err(
                Returned {
                    value: Kept { core, from: _ },
                },
            ) => Err(Returned { value: core }),
        }
    }

    /// Splits off a pass for another caller, which has seen what this one has. The caller's number lies in the span of
    /// this pass, above its own. It takes no memory.
    pub fn split(&self, pass: &mut CachePass, caller: u32) -> CachePass
        requires pass { IsPassOf self.now pass.old }
        requires above { (known pass.old).number < caller }
        requires within { caller < (known pass.old).upto }
        ensures pass { IsPassOf self.now pass.new × (known pass.new ≡ cut_off (known pass.old) caller) }
        ensures new { IsPassOf self.now result × (known result ≡ branch (known pass.old) caller) }
    {
        self.lock.split(pass, caller)
    }

    /// Joins another pass into this one, which then has the longer of the two histories that they had seen. The other's
    /// number is ended. It takes no memory.
    pub fn join(&self, pass: &mut CachePass, other: CachePass)
        requires pass { IsPassOf self.now pass.old }
        requires other { IsPassOf self.now other }
        ensures pass { IsPassOf self.now pass.new × (known pass.new ≡ merged caller_of (known pass.old) (known other)) }
        ensures seen { Grown caller_of (known pass.old) (known pass.new).seen }
        ensures other_seen { Grown caller_of (known other) (known pass.new).seen }
    {
        self.lock.join(pass, other);
    }

    /// Makes one call by the pass's number, in a turn of its own, at the reading that the clock gives in that turn. The
    /// place that is told is counted from the run's first entry.
    pub fn call<R: Wait, K: Clock>(
        &self,
        rt: &R,
        alloc: Global,
        pass: &mut CachePass,
        clock: &mut K,
        call: Call,
    ) -> Result<Told, StepError>
        requires pass { IsPassOf self.now pass.old }
        ensures pass { IsPassOf self.now pass.new × (known pass.new ≡ saw (known pass.old) (known pass.new).seen) }
        ensures answer { (reading : ℕ) × Tells (K.readings clock.old) (K.readings clock.new) reading
            × MatchResult result (Called (known pass.old) (known pass.new) reading call) (Declined (known pass.old) (known pass.new) reading call) }
        ensures legal { SeesLegal (known pass.new) }
        ensures words { K.words clock.new ≡ K.words clock.old }
    {
        let mut held = self.ready(rt, pass, &call);
        let reading = clock.now();
        let answer = held.value.step(alloc, pass.number(), reading, call);
        self.lock.give_back(pass, held);
        answer
    }

    // A turn in which the call may be made: the caller of a lookup waits for nothing.
    fn ready<R: Wait>(&self, rt: &R, pass: &mut CachePass, call: &Call) -> Held<Kept<C>>
        requires pass { IsPassOf self.now pass.old }
        ensures number { number_of pass.new ≡ number_of pass.old }
        ensures held { IsHeldOf self.now.lock result × (held_known result ≡ saw (known pass.old) (C.history result.value.core)) }
        ensures history { Meets caller_of (known pass.old) (C.history result.value.core) }
        ensures setting { (known pass.old).setting ≡ Some (C.beginning result.value.core) }
        ensures shared { IsShared (C.beginning result.value.core) (C.history result.value.core) result.value.from }
        ensures waited { HasWaited (reached (C.beginning result.value.core) (C.history result.value.core)) (number_of pass.old) call.now }
    {
        let number = pass.number();
        let mut token = None;
        'turns: for _ in rt.forever() {
            let held = self.turn_after(rt, pass, token);
            token = held.value.awaited(number, call);
            if token.is_none() {
                return held;
            }
            self.lock.pass_by(pass, held);
        }
        unreachable!()
    }

    // The next turn, or the next one in which the token is closed.
    fn turn_after<R: Wait>(&self, rt: &R, pass: &mut CachePass, token: Option<u64>) -> Held<Kept<C>>
        requires pass { IsPassOf self.now pass.old }
        ensures number { number_of pass.new ≡ number_of pass.old }
        ensures held { IsHeldOf self.now.lock result × (held_known result ≡ saw (known pass.old) (C.history result.value.core)) }
        ensures history { Meets caller_of (known pass.old) (C.history result.value.core) }
        ensures setting { (known pass.old).setting ≡ Some (C.beginning result.value.core) }
        ensures shared { IsShared (C.beginning result.value.core) (C.history result.value.core) result.value.from }
        ensures closed { IfSome token (λ t. is_closed (reached (C.beginning result.value.core) (C.history result.value.core)).fetches t ≡ true) }
    {
        match token {
            None => self.lock.turn(rt, pass),
            Some(token) => self.lock.turn_when(rt, pass, token),
        }
    }

    /// Takes a last turn and gives the history out. It takes no memory.
    pub fn close<R: Wait>(self, rt: &R, pass: CachePass) -> (Sequence<Entry>, CachePass)
    where
        C: Drop,
        requires pass { IsPassOf self pass }
        ensures known { known result.1 ≡ saw (known pass) result.0 }
        ensures history { Meets caller_of (known pass) result.0 }
        ensures legal { SeesLegal (known result.1) }
    {
        let (core, pass) = self.into_core(rt, pass);
        (core.into_history(), pass)
    }

    /// Takes a last turn and gives the cache out, with its history. It takes no memory.
    pub fn into_core<R: Wait>(self, rt: &R, pass: CachePass) -> (C, CachePass)
    where
        C: Drop,
        requires pass { IsPassOf self pass }
        ensures known { known result.1 ≡ saw (known pass) (C.history result.0) }
        ensures history { Meets caller_of (known pass) (C.history result.0) }
        ensures setting { (known pass).setting ≡ Some (C.beginning result.0) }
        ensures whole { IsKeptWhole (C.beginning result.0) (C.history result.0) }
    {
        let (kept, pass) = self.lock.close(rt, pass);
        (kept.core, pass)
    }
}
