// A cache as the layers above know it.
ghost use Rattle.std.specs.Prelude.{◌≡◌, ◌↔◌, [], List, IfErr, IfOk, OnErr, true, false, IsErrOf, IsTrue};
ghost use Rattle.cache_law.specs.declared.call.Entry.{Entry as HistoryEntry};
ghost use Rattle.cache_law.specs.Beginning.{Beginning, beginning_of};
ghost use Rattle.cache_law.specs.Core.{Entered, FitsBehind, moment_of, is_kept, is_lookup, is_segment_full};
ghost use Rattle.cache_law.specs.Bases.{AreAlike, IsBase, IsClosed};
ghost use Rattle.cache_law.specs.History.{HasWaited, Legal, bytes_of_all, reached};
ghost use Rattle.cache_law.specs.State.{awaits, is_closed};

use crate::{Boot, Call, Entry, Params, Reply};
use std::alloc::{AllocError, Global};
use units::Sequence;

/// What a call is told: the moment and the reply of its entry, and the place of the entry in the history.
#[derive(Drop)]
pub struct Told {
    pub moment: u64,
    pub place: u64,
    pub reply: Reply,
}

/// Why a call made no entry. `SegmentFull` is told before `HistoryFull`.
#[derive(Clone, Copy, Debug)]
pub enum StepError {
    /// The history takes half of its limit or more, and the call would open something: a segment ends before it. It comes only
    /// where histories are kept in segments.
    SegmentFull,
    /// The call doesn't fit the history's limit.
    HistoryFull,
    NoMemory,
}

/// A cache that couldn't be reopened for want of memory, with its history as it was.
#[derive(Drop)]
pub struct Kept<C> {
    pub core: C,
}

/// A cache: it answers calls one after another and keeps the history of them.
pub trait CacheCore: Sized {
    /// The limits, and the state before the first entry.
    ghost beginning: { Self → Beginning };

    /// The entries so far, in order.
    ghost history: { Self → List HistoryEntry };

    /// A cache without an object or an entry.
    fn make(alloc: Global, params: &Params, boot: Boot) -> Result<Self, AllocError>
        ensures begins { IfOk result (λ core. beginning core ≡ beginning_of params.now boot) }
        ensures history { IfOk result (λ core. history core ≡ []) };

    /// Answers one call of the caller, at the reading of the clock in milliseconds since 1970 or at the
    /// moment of the entry before, where that is greater. After an error all is as before. That a call doesn't fit is told
    /// before want of memory, but for a lookup: what that takes is known once it has been looked for. A caller that was
    /// told to wait for a fetch looks up again once that is closed.
    fn step(
        &mut self,
        alloc: Global,
        caller: u32,
        reading: u64,
        call: Call,
    ) -> Result<Told, StepError>
        requires waited { HasWaited (reached (beginning self.old) (history self.old)) caller call }
        ensures told { IfOk result (Entered (beginning self.old) (history self.old) (history self.new) caller reading call) }
        ensures segment { IsErrOf result StepError.SegmentFull
            ↔ (is_segment_full (beginning self.old).params (reached (beginning self.old) (history self.old)) (history self.old) caller call ≡ true) }
        ensures full { IsErrOf result StepError.HistoryFull
            → ¬ FitsBehind (beginning self.old) (history self.old) caller (moment_of (beginning self.old) (history self.old) reading) call }
        ensures wanting { is_lookup call ≡ false → IsErrOf result StepError.NoMemory
            → FitsBehind (beginning self.old) (history self.old) caller (moment_of (beginning self.old) (history self.old) reading) call }
        ensures kept { is_kept (reached (beginning self.old) (history self.old)) caller call ≡ true → IsErrOf result StepError.NoMemory → ⊥ }
        ensures err { OnErr result (history self.new ≡ history self.old) }
        ensures legal { Legal (beginning self.old) (history self.old) → Legal (beginning self.new) (history self.new) }
        ensures same { beginning self.new ≡ beginning self.old };

    /// What the entries take of the history's limit. It takes no memory.
    fn bytes(&self) -> u64
        ensures { result ≡ bytes_of_all (history self.now) };

    /// Whether no open fetch has the number. It takes no memory.
    fn closed(&self, token: u64) -> bool
        ensures { result ≡ is_closed (reached (beginning self.now) (history self.now)).fetches token };

    /// The token that the caller's newest lookup in its open round was told to wait for, while that isn't closed. It
    /// takes no memory.
    fn awaits(&self, caller: u32) -> Option<u64>
        ensures { result ≡ awaits (reached (beginning self.now) (history self.now)) caller };

    /// Whether a segment ends before the call of the caller: then the call would be told `SegmentFull`. It takes no memory.
    fn is_full_for(&self, caller: u32, call: &Call) -> bool
        ensures { result ≡ is_segment_full (beginning self.now).params (reached (beginning self.now) (history self.now)) (history self.now) caller call.now };

    /// Whether no round and no fetch is open: then it may be reopened. It takes no memory.
    fn is_idle(&self) -> bool
        ensures { IsTrue result ↔ IsClosed (reached (beginning self.now) (history self.now)) };

    /// Gives the history, and the cache with an empty one, which begins in a base that is alike to the state that was
    /// reached. It is called where no round and no fetch is open.
    fn reopen(self, alloc: Global) -> Result<(Sequence<Entry>, Self), Kept<Self>>
        requires closed { IsClosed (reached (beginning self) (history self)) }
        ensures history { IfOk result (λ reopened. reopened.0 ≡ history self) }
        ensures empty { IfOk result (λ reopened. history reopened.1 ≡ []) }
        ensures params { IfOk result (λ reopened. (beginning reopened.1).params ≡ (beginning self).params) }
        ensures base { IfOk result (λ reopened. IsBase (beginning reopened.1).base) }
        ensures alike { IfOk result (λ reopened. AreAlike (beginning reopened.1).base (reached (beginning self) (history self))) }
        ensures err { IfErr result (λ kept. history kept.core ≡ history self) }
        ensures same { IfErr result (λ kept. beginning kept.core ≡ beginning self) };

    /// The history.
    fn into_history(self) -> Sequence<Entry>
        ensures { result ≡ history self };
}
