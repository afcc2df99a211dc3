// A shelf of objects, with the bans that were issued on them.
ghost use Rattle.std.specs.Prelude.{◌≡◌, ◌↔◌, ◌+◌, ◌-◌, ◌<◌, ◌≤◌, ◌^◌, ℕ, [], List, false, None, IfOk, IfSome, OnErr, OnOk, min};
ghost use Rattle.cache_law.specs.declared.call.Call.TheVariants.{Ban as BanCall, Purge as PurgeCall, Xkey as XkeyCall};
ghost use Rattle.cache_law.specs.declared.call.Entry.{Entry as HistoryEntry};
ghost use Rattle.cache_law.specs.declared.call.Query.{Query as Wanted};
ghost use Rattle.cache_law.specs.declared.call.Reply.TheVariants.{Banned, Purged};
ghost use Rattle.cache_law.specs.Bases.{IsClosed, IsSound};
ghost use Rattle.cache_law.specs.Beginning.{Beginning};
ghost use Rattle.cache_law.specs.History.{reached};
ghost use Rattle.cache_law.specs.State.{is_gone as gone};
ghost use Rattle.ban_lurker.specs.Verdicts.{IsChoreOf, IsVerdictOf};
ghost use Rattle.cache_frame.specs.Shelves.{AreShown, IsScan, LooksOver, MovesOn, Places, Reopens, StandsBeside, StandsOn, Tells};
ghost use Rattle.cache_desk.specs.Stock.{Stock, no_stock, stock_of};

use crate::seen::{Placing, Seen, Use};
use ban_lurker::{Chore, Verdict};
use cache_law::{Ban, BanLine, Object, Query};
use std::alloc::{AllocError, Global};
use units::{Sequence, Shared, Text};

/// What a cache does with objects and bans alone. A shelf isn't the law's bans and objects, it stands for them behind the
/// entries of a history, so that it may keep fewer bans, or objects that a ban has ended.
pub trait Shelf: Sized + Drop {
    /// What a lookup notes of the objects that it came to, for the change that follows.
    type Marks: Drop;

    /// The stock with which a history begins, where it begins with the shelf.
    ghost stock: { Self → Stock };

    /// The shelf stands for the bans and the objects that the entries reach from the beginning.
    ghost Stands: { Self → Beginning → List HistoryEntry → Type 0 };

    /// The marks are of the lookup at the moment.
    ghost IsMarked: { Self → ℕ → Wanted → Self.Marks → Type 0 };

    /// How many objects wait for the lurker: a ban on objects alone was issued since they were last tested on all such bans.
    ghost unswept: { Self → ℕ };

    /// An empty shelf.
    fn empty(alloc: Global) -> Result<Self, AllocError>
        ensures stock { IfOk result (λ shelf. stock shelf ≡ no_stock) }
        ensures stands { IfOk result (λ shelf. (beginning : Beginning) → stock_of beginning.base ≡ no_stock → Stands shelf beginning []) };

    /// What a lookup sees at the moment.
    fn look(
        &self,
        alloc: Global,
        moment: u64,
        query: &Query,
    ) -> Result<Seen<Self::Marks>, AllocError>
        ensures scan { IfOk result (λ seen. Tells Stands self.now moment (IsScan moment query.now seen)) }
        ensures marks { IfOk result (λ seen. IsMarked self.now moment query.now seen.marks) };

    /// Does what the marks say, and uses an object at this place of the history.
    fn take(
        &mut self,
        used: u64,
        moment: u64,
        query: &Query,
        marks: Self::Marks,
        used_as: Use,
    ) -> Result<(), AllocError>
        requires { IsMarked self.old moment query.now marks }
        ensures ok { OnOk result (LooksOver Stands self.old self.new used moment query.now used_as) }
        ensures err { OnErr result (StandsOn Stands self.old self.new) };

    /// Whether a stale object is named that isn't in time, or isn't there. Where memory is wanting for the test of it, an insertion of
    /// an open fetch is refused.
    fn is_gone(&self, alloc: Global, moment: u64, stale: Option<u64>) -> Result<bool, AllocError>
        ensures { IfOk result (λ is_gone. Tells Stands self.now moment (λ state. is_gone ≡ gone stale state.objects)) };

    /// Stores the object under the number of its fetch, in the stale one's place, where it is in time and has room. It is used at this
    /// place of the history.
    fn insert(
        &mut self,
        alloc: Global,
        room: u64,
        used: u64,
        moment: u64,
        token: u64,
        object: &Shared<Object>,
        stale: Option<u64>,
    ) -> Placing
        ensures { Places Stands self.old self.new room used moment token object.now stale result };

    /// Issues the ban.
    fn ban(&mut self, alloc: Global, moment: u64, ban: &Shared<Ban>) -> Result<(), AllocError>
        requires { (stock self.old).issued + 1 < 2 ^ 64 }
        ensures ok { OnOk result (MovesOn Stands self.old self.new moment (BanCall ban.now) Banned) }
        ensures err { OnErr result (StandsOn Stands self.old self.new) };

    /// Lists the bans.
    fn ban_lines(&self, alloc: Global, moment: u64) -> Result<Sequence<BanLine>, AllocError>
        ensures { IfOk result (λ lines. Tells Stands self.now moment (AreShown lines)) };

    /// Removes the objects of the key, and says how many those were.
    fn purge(&mut self, alloc: Global, moment: u64, key: &Sequence<Text>) -> Result<u64, AllocError>
        ensures ok { IfOk result (λ count. MovesOn Stands self.old self.new moment (PurgeCall key.now) (Purged count)) }
        ensures err { OnErr result (StandsOn Stands self.old self.new) };

    /// Removes the objects that have one of the xkeys, or ends their lifetime, and says how many those were.
    fn purge_by(
        &mut self,
        alloc: Global,
        moment: u64,
        keys: &Sequence<Text>,
        soft: bool,
    ) -> Result<u64, AllocError>
        ensures ok { IfOk result (λ count. MovesOn Stands self.old self.new moment (XkeyCall keys.now soft) (Purged count)) }
        ensures err { OnErr result (StandsOn Stands self.old self.new) };

    /// Drops what a cache that is reopened at the moment has no need of.
    fn cut(&mut self, alloc: Global, moment: u64) -> Result<(), AllocError>
        ensures ok { OnOk result ((beginning : Beginning) (entries : List HistoryEntry) → IsSound (reached beginning entries) → Stands self.old beginning entries
            → (reached beginning entries).moment ≡ moment → IsClosed (reached beginning entries) → Reopens Stands self.new (stock self.new) beginning entries) }
        ensures err { OnErr result (StandsOn Stands self.old self.new) };

    /// Tests so many of the objects that wait on the bans on objects alone, or all where they are fewer, and says how many those
    /// were.
    fn lurk(&mut self, alloc: Global, moment: u64, count: u32) -> Result<u32, AllocError>
        ensures swept { IfOk result (λ swept. (swept ≡ min count (unswept self.old)) × (unswept self.new ≡ unswept self.old - swept)) }
        ensures stands { StandsOn Stands self.old self.new };

    /// An object that waits, with the bans that it is to be tested on.
    fn chore(&self, alloc: Global, moment: u64) -> Result<Option<Chore>, AllocError>
        ensures idle { IfOk result (λ chore. (chore ≡ None) ↔ (unswept self.now ≡ 0)) }
        ensures work { (beginning : Beginning) (entries : List HistoryEntry) → IsSound (reached beginning entries) → Stands self.now beginning entries
            → IfOk result (λ chore. IfSome chore (IsChoreOf beginning entries)) };

    /// Does with an object what was found of it. It takes no memory.
    fn settle(&mut self, verdict: Verdict) -> bool
        ensures fewer { unswept self.new ≤ unswept self.old }
        ensures left { result ≡ false → unswept self.new ≡ unswept self.old }
        ensures stands { (beginning : Beginning) (entries : List HistoryEntry) → IsSound (reached beginning entries) → IsVerdictOf beginning entries verdict
            → Stands self.old beginning entries → Stands self.new beginning entries };

    /// A shelf that stands for what entries reach has the bans counted as they have.
    ghost counts: { (shelf : Self) (beginning : Beginning) (entries : List HistoryEntry) → Stands shelf beginning entries → (stock shelf).issued ≡ (reached beginning entries).issued };

    /// An entry that doesn't concern it leaves it standing.
    ghost rests: { (shelf : Self) → StandsBeside Stands shelf };
}
