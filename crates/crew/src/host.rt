// What workers do over a shared cache.
ghost use Rattle.std.specs.Prelude.{◌≡◌, ℕ, List, [], ◌++◌, Some};
ghost use Rattle.cache_law.specs.Beginning.{Beginning};
ghost use Rattle.cache_law.specs.declared.call.Entry.{Entry as HistoryEntry};
ghost use Rattle.turnstile.specs.declared.handles.Pass.{Pass};
ghost use Rattle.turnstile.specs.Handles.{known};
ghost use Rattle.shared_cache.specs.declared.sharing.SharedCache.{SharedCache as Cache};
ghost use Rattle.shared_cache.specs.Passes.{IsPassOf};
ghost use Rattle.wire.specs.Telling.{LinkTold};
ghost use Rattle.world.specs.declared.kit.Kit.{Kit as Tools};
ghost use Rattle.crew.specs.Calls.{HasCalled};
ghost use Rattle.crew.specs.Opening.{IsStart};

use cache_law::CacheCore;
use shared_cache::{CachePass, SharedCache};
use std::alloc::{AllocError, Global};
use wire::{Clock, Dialer, Link};
use workers::Service;
use world::Kit;

/// A service over a shared cache. A shift has a pass of the cache and a kit.
pub trait Host<C: CacheCore, D: Dialer, K: Clock, L: Link>: Service<L, SharedCache<C>> {
    ghost pass_of: { Self.Shift → Pass HistoryEntry Beginning };

    ghost kit_of: { Self.Shift → Tools D K };

    /// The places of the calls that were made for a connection with these events.
    ghost places: { List Self.Event → List ℕ };

    /// A connection with these events was served, over a history that begins so, for a caller of this number: from one kit to
    /// another, and from what was told of the link when it was new.
    ghost Tells: { Self → Beginning → List HistoryEntry → ℕ → Tools D K → Tools D K → LinkTold → List Self.Event → Type 0 };

    /// What a shift needs beside a pass and a kit.
    type Outfit: Drop;

    fn outfit(&self, alloc: Global) -> Result<Self::Outfit, AllocError>;

    /// A keeper that was told nothing.
    fn begin_keeper(&self, alloc: Global) -> Self::Keeper
        ensures { Self.Told result [] };

    /// A shift to begin with.
    fn begin_shift(&self, outfit: Self::Outfit, pass: CachePass, kit: Kit<D, K>) -> Self::Shift
        ensures { (pass_of result ≡ pass) × (kit_of result ≡ kit) };

    /// What is handed back of a shift.
    fn end_shift(&self, shift: Self::Shift) -> (CachePass, Kit<D, K>)
        ensures { (result.0 ≡ pass_of shift) × (result.1 ≡ kit_of shift) };

    /// With a pass that hasn't seen an entry a connection may be served.
    ghost ready: { (host : Self) (cache : Cache C) (shift : Self.Shift) → IsPassOf cache (pass_of shift) → IsStart (known (pass_of shift)) → Self.Ready host cache shift };

    ghost pass: { (host : Self) (cache : Cache C) (shift : Self.Shift) → Self.Ready host cache shift → IsPassOf cache (pass_of shift) };

    /// The pass gains the places of a connection's calls.
    ghost calls: { (host : Self) (cache : Cache C) (old new : Self.Shift) (opening : LinkTold) (events : List Self.Event)
        → Self.Serves host cache old new opening events → HasCalled (known (pass_of old)) (known (pass_of new)) (places events) };

    /// What is told then holds over the history that the pass has seen.
    ghost tells: { (host : Self) (cache : Cache C) (old new : Self.Shift) (opening : LinkTold) (events : List Self.Event) (beginning : Beginning)
        → Self.Serves host cache old new opening events → (known (pass_of new)).setting ≡ Some beginning
        → Tells host beginning (known (pass_of new)).seen (known (pass_of old)).number (kit_of old) (kit_of new) opening events };

    /// It holds over each longer history.
    ghost longer: { (host : Self) (beginning : Beginning) (history more : List HistoryEntry) (number : ℕ) (before after : Tools D K) (opening : LinkTold)
        (events : List Self.Event) → Tells host beginning history number before after opening events
        → Tells host beginning (history ++ more) number before after opening events };
}
