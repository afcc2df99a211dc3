// The cache as the value of a turn lock.
ghost use Rattle.std.specs.Prelude.{◌≡◌, IfErr, IfNone, IfOk, IfSome, IsErrOf, OnErr, Some, true};
ghost use Rattle.cache_law.specs.Core.{FitsBehind, is_kept, is_segment_full, moment_of};
ghost use Rattle.cache_law.specs.History.{HasWaited, Legal, reached};
ghost use Rattle.cache_law.specs.State.{awaits, is_closed};
ghost use Rattle.shared_cache.specs.Sharing.{EnteredInRun, IsShared};

use cache_law::{Boot, CacheCore, Call, Entry, Params, StepError, Told};
use std::alloc::Global;
use std::marker::Model;
use turnstile::Chronicle;

/// Where a history begins. No value of it is made: passes know it in proofs alone.
#[derive(Drop)]
pub struct Origin {
    params: Params,
    boot: Boot,
}

impl Model for Origin {
    ghost use Rattle.cache_law.specs.Beginning.{Beginning, beginning_of};

    ghost Value = { Beginning };

    ghost view = { λ o. beginning_of o.params o.boot };
}

/// The cache in the lock, and how many entries of the run were made before its history. Between turns its history is legal. It
/// isn't kept in segments.
#[derive(Drop)]
pub(crate) struct Kept<C> {
    pub core: C,
    pub from: u64,
}

impl<C: CacheCore> Chronicle for Kept<C> {
    type Entry = Entry;

    type Setting = Origin;

    ghost caller = { λ entry. entry.caller };

    ghost history = { λ kept. C.history kept.core };

    ghost setting = { λ kept. C.beginning kept.core };

    ghost Sound = { λ kept. IsShared (C.beginning kept.core) (C.history kept.core) kept.from };

    ghost closed = { λ beginning token entries. is_closed (reached beginning entries).fetches token };

    fn is_closed(&self, token: u64) -> bool {
        self.core.closed(token)
    }
}

impl<C: CacheCore> Kept<C> {
    /// The token that the caller has to wait for before it makes the call.
    pub fn awaited(&self, caller: u32, call: &Call) -> Option<u64>
        ensures token { IfSome result (λ token. awaits (reached (C.beginning self.now.core) (C.history self.now.core)) caller ≡ Some token) }
        ensures waited { IfNone result (HasWaited (reached (C.beginning self.now.core) (C.history self.now.core)) caller call.now) }
    {
        match call {
            Call::Lookup(_) => self.core.awaits(caller),
            _ => None,
        }
    }

    /// Makes one call, and tells its place among all entries of the run.
    pub fn step(
        &mut self,
        alloc: Global,
        caller: u32,
        reading: u64,
        call: Call,
    ) -> Result<Told, StepError>
        requires waited { HasWaited (reached (C.beginning self.old.core) (C.history self.old.core)) caller call }
        requires from { self.old.from ≡ (C.beginning self.old.core).base.entries }
        ensures told { IfOk result (EnteredInRun (C.beginning self.old.core) (C.history self.old.core) (C.history self.new.core) caller reading call) }
        ensures segment { IsErrOf result StepError.SegmentFull
            → (is_segment_full (C.beginning self.old.core).params (reached (C.beginning self.old.core) (C.history self.old.core)) (C.history self.old.core) caller call ≡ true) }
        ensures full { IsErrOf result StepError.HistoryFull
            → ¬ FitsBehind (C.beginning self.old.core) (C.history self.old.core) caller (moment_of (C.beginning self.old.core) (C.history self.old.core) reading) call }
        ensures kept { is_kept (reached (C.beginning self.old.core) (C.history self.old.core)) caller call ≡ true → IsErrOf result StepError.NoMemory → ⊥ }
        ensures err { OnErr result (C.history self.new.core ≡ C.history self.old.core) }
        ensures legal { Legal (C.beginning self.old.core) (C.history self.old.core) → Legal (C.beginning self.new.core) (C.history self.new.core) }
        ensures same { (C.beginning self.new.core ≡ C.beginning self.old.core) × (self.new.from ≡ self.old.from) }
    {
        match self.core.step(alloc, caller, reading, call) {
            Ok(told) => Ok(Told {
                moment: told.moment,
                place: self.from + told.place,
                reply: told.reply,
            }),
            Err(error) => Err(error),
        }
    }
}
