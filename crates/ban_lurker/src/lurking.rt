// What the lurker of a cache does.
ghost use Rattle.std.specs.Prelude.{◌≡◌, ◌↔◌, ◌-◌, ◌≤◌, ℕ, false, None, IfOk, IfSome, min};
ghost use Rattle.ban_lurker.specs.Verdicts.{IsChoreOf, IsVerdictOf};

use crate::{Chore, Verdict};
use cache_law::CacheCore;
use std::alloc::{AllocError, Global};

/// A cache that has a lurker.
pub trait LurkCore: CacheCore {
    /// How many stored objects wait for the lurker: a ban on objects alone was issued since they were last tested on all
    /// such bans.
    ghost unswept: { Self → ℕ };

    /// Tests so many of the objects that wait, or all where they are fewer, and says how many those were. The history
    /// stays as it is, so no later call is answered otherwise. An error means that memory was wanting.
    fn lurk(&mut self, alloc: Global, count: u32) -> Result<u32, AllocError>
        ensures swept { IfOk result (λ swept. (swept ≡ min count (unswept self.old)) × (unswept self.new ≡ unswept self.old - swept)) }
        ensures history { Self.history self.new ≡ Self.history self.old }
        ensures same { Self.beginning self.new ≡ Self.beginning self.old };

    /// An object that waits, as it looks, with the bans that it is to be tested on; none where no object waits. An error means
    /// that memory was wanting.
    fn chore(&self, alloc: Global) -> Result<Option<Chore>, AllocError>
        ensures idle { IfOk result (λ chore. (chore ≡ None) ↔ (unswept self.now ≡ 0)) }
        ensures work { IfOk result (λ chore. IfSome chore (IsChoreOf (Self.beginning self.now) (Self.history self.now))) };

    /// Does with an object what was found of it: a dead one goes, and any other counts as tested up to the verdict's ban. Where the
    /// object is gone, or was tested since on one of these bans, nothing changes and the answer is false. The history stays as it
    /// is, and no memory is taken.
    fn settle(&mut self, verdict: Verdict) -> bool
        requires found { IsVerdictOf (Self.beginning self.old) (Self.history self.old) verdict }
        ensures fewer { unswept self.new ≤ unswept self.old }
        ensures left { result ≡ false → unswept self.new ≡ unswept self.old }
        ensures history { Self.history self.new ≡ Self.history self.old }
        ensures same { Self.beginning self.new ≡ Self.beginning self.old };
}
