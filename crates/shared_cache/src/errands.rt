// Rounds of a lurker over a shared cache.
ghost use Rattle.std.specs.Prelude.{◌≡◌, IfOk, IfSome};

use crate::sharing::{CachePass, SharedCache};
use ban_lurker::{Chore, LurkCore, Verdict, judge};
use std::alloc::{AllocError, Global};
use std::sync::Wait;

/// What came of an errand.
#[derive(Clone, Copy, PartialEq, Eq)]
pub enum Errand {
    /// The object is gone where it was found dead, and counts as tested else.
    Settled(Verdict),
    /// The object was gone, or had been tested since.
    Moved(Verdict),
    /// No object waited.
    Idle,
}

impl<C: LurkCore> SharedCache<C> {
    ghost use Rattle.turnstile.specs.Knowledge.{saw, Grown};
    ghost use Rattle.turnstile.specs.Handles.{known, number_of};
    ghost use Rattle.shared_cache.specs.Passes.{IsPassOf};
    ghost use Rattle.shared_cache.specs.Sharing.{caller_of, numbers};
    ghost use Rattle.shared_cache.specs.Lurking.{HasTurned, IsErrandOf, SeesChore, SeesVerdict};

    /// One round of a lurker: a chore is taken in a turn, judged outside of any, and settled in another turn. It enters
    /// nothing. An error means that memory was wanting, and nothing was settled.
    pub fn errand<R: Wait>(
        &self,
        rt: &R,
        alloc: Global,
        pass: &mut CachePass,
    ) -> Result<Errand, AllocError>
        requires pass { IsPassOf self.now pass.old }
        ensures pass { IsPassOf self.now pass.new × (known pass.new ≡ saw (known pass.old) (known pass.new).seen) }
        ensures grown { Grown caller_of (known pass.old) (known pass.new).seen }
        ensures same { numbers (known pass.new) ≡ numbers (known pass.old) }
        ensures verdict { IfOk result (IsErrandOf (known pass.new)) }
    {
        let Some(chore) = self.take_chore(rt, alloc, pass)? else {
            return Ok(Errand::Idle);
        };
        let verdict = judge(alloc, chore)?;
        if self.settle(rt, pass, verdict) {
            Ok(Errand::Settled(verdict))
        } else {
            Ok(Errand::Moved(verdict))
        }
    }

    fn take_chore<R: Wait>(
        &self,
        rt: &R,
        alloc: Global,
        pass: &mut CachePass,
    ) -> Result<Option<Chore>, AllocError>
        requires pass { IsPassOf self.now pass.old }
        ensures pass { IsPassOf self.now pass.new }
        ensures turned { HasTurned (known pass.old) (known pass.new) }
        ensures chore { IfOk result (λ found. IfSome found (λ chore. SeesChore chore (known pass.new))) }
    {
        let held = self.lock.turn(rt, pass);
        let chore = held.value.core.chore(alloc);
        self.lock.pass_by(pass, held);
        chore
    }

    fn settle<R: Wait>(&self, rt: &R, pass: &mut CachePass, verdict: Verdict) -> bool
        requires pass { IsPassOf self.now pass.old }
        requires found { SeesVerdict verdict (known pass.old) }
        ensures pass { IsPassOf self.now pass.new }
        ensures turned { HasTurned (known pass.old) (known pass.new) }
        ensures found { SeesVerdict verdict (known pass.new) }
    {
        let mut held = self.lock.turn(rt, pass);
        let settled = held.value.core.settle(verdict);
        self.lock.pass_by(pass, held);
        settled
    }
}
