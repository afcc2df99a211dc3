// What is done beside workers.
ghost use Rattle.std.specs.Prelude.{ℕ, List};
ghost use Rattle.turnstile.specs.Handles.{known};
ghost use Rattle.shared_cache.specs.Passes.{IsPassOf};
ghost use Rattle.shared_cache.specs.Sharing.{CallerKnows};
ghost use Rattle.crew.specs.Calls.{HasCalled};

use cache_law::CacheCore;
use shared_cache::{CachePass, SharedCache};
use std::alloc::Global;
use std::sync::Wait;

/// What is done beside workers over their cache, by the run's first pass.
pub trait Job<C: CacheCore>: Drop {
    /// What it leaves.
    type Done: Drop;

    /// The places of the calls that were made for it.
    ghost places: { Self.Done → List ℕ };

    /// It was done, and this was left, from what its pass knew to what it knows then.
    ghost Did: { Self → Self.Done → CallerKnows → CallerKnows → Type 0 };

    /// Does it. The call may wait for good.
    fn work<R: Wait>(
        self,
        rt: &R,
        alloc: Global,
        cache: &SharedCache<C>,
        pass: CachePass,
    ) -> (CachePass, Self::Done)
        requires pass { IsPassOf cache.now pass }
        ensures pass { IsPassOf cache.now result.0 }
        ensures called { HasCalled (known pass) (known result.0) (places result.1) }
        ensures did { Did self result.1 (known pass) (known result.0) };
}

/// Who is told that all workers have left, so that a job which waits for somebody ends. It has no meaning: no clause knows of it.
pub trait Sign {
    fn raise(&self);
}
