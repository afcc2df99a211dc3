// The shelf of the lazy cache: a store of objects and bans.
ghost use Rattle.std.specs.Prelude.{◌≡◌, ◌↔◌, ◌+◌, ◌-◌, ◌<◌, ◌≤◌, ◌^◌, List, None, false, true, min, IfOk, IfSome, IsTrue, OnErr, OnOk};
ghost use Rattle.std.specs.List.{list_any};
ghost use Rattle.cache_law.specs.declared.call.Call.TheVariants.{Ban as BanCall, Purge as PurgeCall, Xkey as XkeyCall};
ghost use Rattle.cache_law.specs.declared.call.Entry.{Entry as HistoryEntry};
ghost use Rattle.cache_law.specs.declared.call.Reply.TheVariants.{Banned, Purged};
ghost use Rattle.cache_law.specs.Bases.{IsClosed, IsSound};
ghost use Rattle.cache_law.specs.Beginning.{Beginning};
ghost use Rattle.cache_law.specs.History.{reached};
ghost use Rattle.ban_lurker.specs.Verdicts.{IsChoreOf, IsVerdictOf};
ghost use Rattle.cache_frame.specs.Shelves.{LooksOver, MovesOn, Reopens, StandsOn};
ghost use Rattle.lazy_law.specs.Banning.{banned_late};
ghost use Rattle.lazy_law.specs.Insertion.{has_number};
ghost use Rattle.lazy_law.specs.Sweeping.{count_unswept, is_asked, judged_lazy};
ghost use Rattle.lazy_store.specs.Chores.{IsChoreIn};
ghost use Rattle.lazy_store.specs.Cutting.{AreCut, IsOldestNeeded, with_needed};
ghost use Rattle.lazy_store.specs.Lurking.{AreSwept};
ghost use Rattle.lazy_store.specs.Tidying.{swept_whole, with_timely};
ghost use Rattle.lazy_store.specs.Uses.{AreUsedBefore};
ghost use Rattle.lazy_lookup.specs.Marks.{AreMarksOf};
ghost use Rattle.lazy_core.specs.Shelf.{AreSweptAndCut, ShelfStands, StandsBehind, stock_in};
ghost use Rattle.lazy_core.specs.Rests.{rests_so};

use ban_lurker::{Chore, Verdict};
use cache_frame::{Placing, Seen, Shelf, Use};
use cache_law::{Ban, BanLine, Object, Query};
use lazy_insert::insert;
use lazy_lookup::{Marks, look, take};
use lazy_store::Store;
use std::alloc::{AllocError, Global};
use units::{Sequence, Shared, Text};

/// The objects and the bans of the lazy cache.
#[derive(Drop)]
pub struct LazyShelf {
    store: Store,
}

impl LazyShelf {
    /// Whether all objects were used before this place of the history, and none has the number. So it is at the place of the
    /// next entry, and for the number of an open fetch.
    fn is_next(&self, used: u64, number: u64) -> bool
        ensures { IsTrue result ↔ (AreUsedBefore used self.now.store.objects × (list_any (has_number number) self.now.store.objects ≡ false)) }
    {
        match self.store.item(number) {
            Some(_) => false,
            None => self.store.is_latest(used),
        }
    }
}

impl Shelf for LazyShelf {
    type Marks = Marks;

    ghost stock = { λ shelf. stock_in shelf.store };

    ghost Stands = { λ shelf beginning entries. StandsBehind shelf.store beginning entries };

    ghost IsMarked = { λ shelf moment query marks. AreMarksOf moment query shelf.store marks };

    ghost unswept = { λ shelf. count_unswept shelf.store };

    fn empty(alloc: Global) -> Result<LazyShelf, AllocError> {
        Ok(LazyShelf {
            store: Store::new(alloc)?,
        })
    }

    fn look(&self, alloc: Global, moment: u64, query: &Query) -> Result<Seen<Marks>, AllocError> {
        look(&self.store, alloc, moment, query)
    }

    fn take(
        &mut self,
        used: u64,
        _moment: u64,
        _query: &Query,
        marks: Marks,
        used_as: Use,
    ) -> Result<(), AllocError>
        requires { AreMarksOf _moment _query.now self.old.store marks }
        ensures ok { OnOk result (LooksOver ShelfStands self.old self.new used _moment _query.now used_as) }
        ensures err { OnErr result (StandsOn ShelfStands self.old self.new) }
        ensures same { OnErr result (self.new.store ≡ self.old.store) }
    {
        // (no history has an entry before a use)
        if !self.store.is_latest(used) {
            return Ok(());
        }
        take(&mut self.store, used, &marks, used_as)
    }

    fn is_gone(&self, alloc: Global, moment: u64, stale: Option<u64>) -> Result<bool, AllocError> {
        self.store.is_gone(alloc, moment, stale)
    }

    fn insert(
        &mut self,
        alloc: Global,
        room: u64,
        used: u64,
        moment: u64,
        token: u64,
        object: &Shared<Object>,
        stale: Option<u64>,
    ) -> Placing {
        // (no history has another object of an open fetch)
        if !self.is_next(used, token) {
            return Placing::NotInTime;
        }
        insert(
            &mut self.store,
            alloc,
            room,
            used,
            moment,
            token,
            object,
            stale,
        )
    }

    fn ban(&mut self, alloc: Global, moment: u64, ban: &Shared<Ban>) -> Result<(), AllocError>
        requires { self.old.store.issued + 1 < 2 ^ 64 }
        ensures ok { OnOk result (MovesOn ShelfStands self.old self.new moment (BanCall ban.now) Banned) }
        ensures err { OnErr result (StandsOn ShelfStands self.old self.new) }
        ensures untested { self.new.store.objects ≡ self.old.store.objects }
        ensures issued { OnOk result (AreCut (banned_late moment ban.now self.old.store) self.new.store) }
        ensures oldest { OnOk result (IsOldestNeeded self.new.store) }
        ensures same { OnErr result (self.new.store ≡ self.old.store) }
    {
        self.store.ban(alloc, moment, ban)?;
        self.store.cut();
        Ok(())
    }

    fn ban_lines(&self, alloc: Global, _moment: u64) -> Result<Sequence<BanLine>, AllocError> {
        self.store.ban_lines(alloc)
    }

    fn purge(&mut self, alloc: Global, moment: u64, key: &Sequence<Text>) -> Result<u64, AllocError>
        ensures ok { IfOk result (λ count. MovesOn ShelfStands self.old self.new moment (PurgeCall key.now) (Purged count)) }
        ensures err { OnErr result (StandsOn ShelfStands self.old self.new) }
        ensures same { OnErr result (self.new.store ≡ self.old.store) }
    {
        self.store.purge(alloc, moment, key.as_slice())
    }

    fn purge_by(
        &mut self,
        alloc: Global,
        moment: u64,
        keys: &Sequence<Text>,
        soft: bool,
    ) -> Result<u64, AllocError>
        ensures ok { IfOk result (λ count. MovesOn ShelfStands self.old self.new moment (XkeyCall keys.now soft) (Purged count)) }
        ensures err { OnErr result (StandsOn ShelfStands self.old self.new) }
        ensures same { OnErr result (self.new.store ≡ self.old.store) }
    {
        if soft {
            self.store.soften(alloc, moment, keys.as_slice())
        } else {
            self.store.purge_by(alloc, moment, keys.as_slice())
        }
    }

    fn cut(&mut self, alloc: Global, moment: u64) -> Result<(), AllocError>
        ensures ok { OnOk result ((beginning : Beginning) (entries : List HistoryEntry) → IsSound (reached beginning entries) → ShelfStands self.old beginning entries
            → (reached beginning entries).moment ≡ moment → IsClosed (reached beginning entries) → Reopens ShelfStands self.new (stock_in self.new.store) beginning entries) }
        ensures err { OnErr result (StandsOn ShelfStands self.old self.new) }
        ensures left { OnOk result (self.new.store ≡ with_needed (with_timely moment (swept_whole self.old.store))) }
        ensures swept { OnErr result (AreSwept self.old.store self.new.store) }
    {
        self.store.sweep_all(alloc)?;
        self.store.drop_ended(moment);
        self.store.keep_needed();
        Ok(())
    }

    fn lurk(&mut self, alloc: Global, _moment: u64, count: u32) -> Result<u32, AllocError>
        ensures swept { IfOk result (λ swept. (swept ≡ min count (count_unswept self.old.store)) × (count_unswept self.new.store ≡ count_unswept self.old.store - swept)) }
        ensures stands { StandsOn ShelfStands self.old self.new }
        ensures left { OnOk result (AreSweptAndCut self.old.store self.new.store) }
        ensures oldest { OnOk result (IsOldestNeeded self.new.store) }
        ensures wanting { OnErr result (AreSwept self.old.store self.new.store) }
    {
        let swept = self.store.lurk(alloc, count)?;
        self.store.cut();
        Ok(swept)
    }

    fn chore(&self, alloc: Global, _moment: u64) -> Result<Option<Chore>, AllocError>
        ensures idle { IfOk result (λ chore. (chore ≡ None) ↔ (count_unswept self.now.store ≡ 0)) }
        ensures work { (beginning : Beginning) (entries : List HistoryEntry) → IsSound (reached beginning entries) → ShelfStands self.now beginning entries
            → IfOk result (λ chore. IfSome chore (IsChoreOf beginning entries)) }
        ensures waits { IfOk result (λ chore. IfSome chore (IsChoreIn self.now.store)) }
    {
        self.store.chore(alloc)
    }

    fn settle(&mut self, verdict: Verdict) -> bool
        ensures fewer { count_unswept self.new.store ≤ count_unswept self.old.store }
        ensures left { result ≡ false → count_unswept self.new.store ≡ count_unswept self.old.store }
        ensures stands { (beginning : Beginning) (entries : List HistoryEntry) → IsSound (reached beginning entries) → IsVerdictOf beginning entries verdict
            → ShelfStands self.old beginning entries → ShelfStands self.new beginning entries }
        ensures answer { (beginning : Beginning) (entries : List HistoryEntry) → IsVerdictOf beginning entries verdict → ShelfStands self.old beginning entries
            → result ≡ list_any (is_asked verdict) self.old.store.objects }
        ensures judged { result ≡ true → AreCut (judged_lazy verdict self.old.store) self.new.store }
        ensures oldest { result ≡ true → IsOldestNeeded self.new.store }
        ensures same { result ≡ false → self.new.store ≡ self.old.store }
    {
        if !self.store.settle(verdict) {
            return false;
        }
        self.store.cut();
        true
    }

    ghost counts = { λ shelf beginning entries stands. stands.stands.stands.count };

    ghost rests = { λ shelf. rests_so shelf.store };
}
