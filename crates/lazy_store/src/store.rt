// Objects and bans in their containers.
ghost use Rattle.std.specs.Prelude.{◌≡◌, ◌↔◌, None, ◌≤◌, ◌<◌, ◌+◌, ◌-◌, ◌^◌, true, false, min, Some, find as seek, option_map, IsTrue, IfNone, IfOk, IfSome, MatchOption, OnErr, OnOk};
ghost use Rattle.std.specs.List.{AllByRecursion, list_any};
ghost use Rattle.std.specs.Option.{option_copied};
ghost use Rattle.lazy_law.specs.Banning.{banned_late};
ghost use Rattle.cache_law.specs.Object.{in_time, size_of};
ghost use Rattle.cache_law.specs.Purges.{xkeys_of};
ghost use Rattle.lazy_law.specs.Insertion.{has_number as is_numbered, lacks_room, others_late, sizes_late};
ghost use Rattle.lazy_law.specs.Placed.{Placed, above, is_dead, is_met, is_unswept, kept_bans, marked_at, nothing_kept};
ghost use Rattle.lazy_law.specs.Purging.{is_of_key, is_of_xkeys};
ghost use Rattle.lazy_law.specs.Scan.{is_struck};
ghost use Rattle.lazy_law.specs.Stands.{IsWithin as TestedUpTo};
ghost use Rattle.lazy_law.specs.Sweeping.{count_unswept, judged_lazy, swept_lazy};
ghost use Rattle.lazy_store.specs.Changes.{moved, without};
ghost use Rattle.lazy_store.specs.Chores.{IsChoreIn};
ghost use Rattle.lazy_store.specs.Cutting.{AreCut, IsOldestNeeded, with_needed};
ghost use Rattle.lazy_store.specs.Displaced.{AreDisplaced, with_first};
ghost use Rattle.lazy_store.specs.Lurking.{AreSwept, is_waiting_as};
ghost use Rattle.lazy_store.specs.Members.{number_in, placed_in};
ghost use Rattle.lazy_store.specs.Numbered.{numbers_where};
ghost use Rattle.lazy_store.specs.Settling.{is_open, is_settled, is_sound as is_sound_for, settled};
ghost use Rattle.lazy_store.specs.Softening.{softened_all};
ghost use Rattle.lazy_store.specs.Tied.{AreApart};
ghost use Rattle.lazy_store.specs.Tidying.{is_ended_as};
ghost use Rattle.lazy_store.specs.Uses.{AreUsedBefore, used_at, with_hit};

use crate::ends::end_of;
use crate::errands::bans_above;
use crate::finding::{Waiting, find, last_use, waiting_round};
use crate::numbering::{number_at, numbers_at};
use crate::placement::Placement;
use crate::plan::{Plan, plan_for, set_objects};
use crate::testing::is_matched;
use crate::waiting::{fewer, is_waiting, with_mark};
use ban_expr::object_only;
use ban_list::{BanList, Stand};
use ban_lurker::{BanRun, Chore, Verdict};
use cache_law::{Ban, BanLine, Query, RequestView};
use object_heads::{Heads, Item};
use room_lru::{Member, RoomLru};
use std::alloc::{AllocError, Global};
use std::marker::Model;
use units::{Sequence, Shared, Text};
use xkey_index::XkeyIndex;

/// The objects and bans of a lazy cache. Clauses see what it keeps as lists.
#[derive(Drop)]
pub struct Store {
    heads: Heads<Placement>,
    tagged: XkeyIndex,
    room: RoomLru,
    bans: BanList,
    // where objects wait for the lurker, those whose mark is below this number do
    newest: u64,
    // how many wait
    unswept: u64,
    // the handle from which the lurker goes on
    cursor: u64,
}

impl Model for Store {
    ghost use Rattle.lazy_law.specs.Placed.{Lazy};
    ghost use Rattle.lazy_store.specs.Members.{lazy_of};
    ghost use Rattle.lazy_store.specs.Tied.{AreTied};

    ghost Value = { Lazy };

    ghost view = { λ store. lazy_of store.heads store.bans };

    ghost invariant = { λ store. AreTied store.heads store.tagged store.room store.bans store.newest store.unswept };
}

impl Store {
    /// No objects and no bans.
    pub fn new(alloc: Global) -> Result<Store, AllocError>
        ensures { IfOk result (λ store. store ≡ nothing_kept) }
    {
        let bans = BanList::new(alloc)?;
        Ok(Store {
            heads: Heads::new(alloc),
            tagged: XkeyIndex::new(alloc),
            room: RoomLru::new(alloc),
            bans,
            newest: 0,
            unswept: 0,
            cursor: 0,
        })
    }

    /// How many bans were issued. No object was tested on more. It takes no memory.
    pub fn issued(&self) -> u64
        ensures count { result ≡ self.now.issued }
        ensures within { AllByRecursion (TestedUpTo self.now.issued) self.now.objects }
    {
        self.bans.issued()
    }

    /// How many objects wait for the lurker. It takes no memory.
    pub fn unswept(&self) -> u64
        ensures { result ≡ count_unswept self.now }
    {
        self.unswept
    }

    /// The object of the number, with what is kept of it. No two objects have one number. It takes no memory.
    pub fn item(&self, number: u64) -> Option<&Item<Placement>>
        ensures found { option_map placed_in (option_copied result) ≡ seek (is_numbered number) self.now.objects }
        ensures apart { AreApart number_in self.now.objects }
    {
        match self.heads.handle_of(number) {
            Some(handle) => self.heads.get(handle),
            None => None,
        }
    }

    /// The numbers of the objects of the key, the newest first. No two objects have one number.
    pub fn numbers_of_key(&self, alloc: Global, key: &[Text]) -> Result<Vec<u64>, AllocError>
        ensures found { IfOk result (λ numbers. numbers.items ≡ numbers_where (is_of_key key.now) self.now.objects) }
        ensures apart { AreApart number_in self.now.objects }
    {
        let handles = self.heads.find(alloc, key)?;
        numbers_at(&self.heads, alloc, &handles)
    }

    /// The numbers of the objects that have one of the xkeys, the newest first. No two objects have one number.
    pub(crate) fn numbers_of_xkeys(
        &self,
        alloc: Global,
        keys: &[Text],
    ) -> Result<Vec<u64>, AllocError>
        ensures found { IfOk result (λ numbers. numbers.items ≡ numbers_where (is_of_xkeys keys.now) self.now.objects) }
        ensures apart { AreApart number_in self.now.objects }
    {
        let handles = self.tagged.find(alloc, keys)?;
        numbers_at(&self.heads, alloc, &handles)
    }

    /// Takes the object of the number out, where there is one. It takes no memory.
    pub fn remove(&mut self, number: u64)
        ensures { self.new ≡ without number self.old }
    {
        let found = match find(&self.heads, number) {
            Some(found) => found,
            None => return,
        };
        let stand = found.placement.stand;
        self.heads.take(found.handle);
        self.tagged.take(found.handle);
        self.room.take(found.placement.used);
        self.bans.depart(stand);
        self.unswept = fewer(self.unswept, self.newest, stand.mark);
    }

    /// Whether a ban on objects alone that the object wasn't tested on matches it.
    pub(crate) fn is_dead(&self, alloc: Global, item: &Item<Placement>) -> Result<bool, AllocError>
        ensures { IfOk result (λ dead. dead ≡ is_dead (kept_bans self.now) (placed_in item.now)) }
    {
        // that the numbers fall along the lines
        let _issued = self.bans.issued();
        is_matched(
            &self.bans,
            alloc,
            item.payload.stand.mark,
            &item.view.object,
            None,
        )
    }

    /// Ends the lifetime of the objects of these numbers at the moment, of which no two are the same. Where memory is wanting all is
    /// as before.
    pub(crate) fn soften_all(
        &mut self,
        alloc: Global,
        moment: u64,
        numbers: &[u64],
    ) -> Result<(), AllocError>
        requires { AreApart (λ number. number) numbers.now }
        ensures ok { OnOk result (self.new ≡ softened_all moment numbers.now self.old) }
        ensures err { OnErr result (self.new ≡ self.old) }
    {
        let plan = plan_for(&self.heads, alloc, moment, numbers)?;
        self.room.move_ends(&plan.endings)?;
        let Plan { endings, objects } = plan;
        drop(endings);
        set_objects(&mut self.heads, objects);
        Ok(())
    }

    // Whether a ban on requests that the object wasn't tested on matches it with the request.
    fn is_met(
        &self,
        alloc: Global,
        item: &Item<Placement>,
        request: &RequestView,
    ) -> Result<bool, AllocError>
        ensures { IfOk result (λ met. met ≡ is_met (kept_bans self.now) request.now (placed_in item.now)) }
    {
        // that the numbers fall along the lines
        let _issued = self.bans.issued();
        is_matched(
            &self.bans,
            alloc,
            item.payload.stand.place,
            &item.view.object,
            Some(request),
        )
    }

    /// Whether a ban that the object wasn't tested on matches it, alone or with the query's request. An error means that
    /// memory was wanting.
    pub fn is_struck(
        &self,
        alloc: Global,
        query: &Query,
        item: &Item<Placement>,
    ) -> Result<bool, AllocError>
        ensures { IfOk result (λ struck. struck ≡ is_struck (kept_bans self.now) query.now (placed_in item.now)) }
    {
        if self.is_dead(alloc, item)? {
            return Ok(true);
        }
        self.is_met(alloc, item, &query.request)
    }

    /// Tests the object of the number, where there is one, on all bans on objects alone: it goes where one matches it. Where
    /// memory is wanting all is as before.
    pub(crate) fn sweep(&mut self, alloc: Global, number: u64) -> Result<(), AllocError>
        ensures ok { OnOk result (self.new ≡ swept_lazy (is_numbered number) self.old) }
        ensures err { OnErr result (self.new ≡ self.old) }
    {
        let item = match self.item(number) {
            Some(item) => item,
            None => return Ok(()),
        };
        let place = item.payload.stand.place;
        if self.is_dead(alloc, item)? {
            self.remove(number);
            return Ok(());
        }
        let mark = self.issued();
        self.move_to(number, Stand { place, mark });
        Ok(())
    }

    /// The object of the number, where there is one, stands there among the bans, which it was tested on. It takes no memory.
    pub(crate) fn move_to(&mut self, number: u64, stand: Stand)
        requires place { stand.place ≤ self.old.issued }
        requires mark { stand.mark ≤ self.old.issued }
        requires later { AllByRecursion (λ placed. is_numbered number placed ≡ true → placed.mark ≤ stand.mark) self.old.objects }
        ensures { self.new ≡ moved number stand self.old }
    {
        let found = match find(&self.heads, number) {
            Some(found) => found,
            None => return,
        };
        let old = found.placement;
        let payload = Placement {
            used: old.used,
            stand,
        };
        // that they can be counted
        let _objects = self.bans.objects();
        self.heads.set_payload(found.handle, payload);
        self.bans.depart(old.stand);
        self.bans.enter(stand);
        self.unswept = with_mark(self.unswept, self.newest, old.stand.mark, stand.mark);
    }

    /// Whether all objects were used before this place of the history. It takes no memory.
    pub fn is_latest(&self, used: u64) -> bool
        ensures { IsTrue result ↔ AreUsedBefore used self.now.objects }
    {
        self.room.is_latest(used)
    }

    /// The object of the number, where there is one, was used at this place of the history. Where memory is wanting all is as
    /// before.
    pub fn use_at(&mut self, number: u64, used: u64) -> Result<(), AllocError>
        requires { AreUsedBefore used self.old.objects }
        ensures ok { OnOk result (self.new ≡ used_at used number self.old) }
        ensures err { OnErr result (self.new ≡ self.old) }
    {
        let Some(found) = find(&self.heads, number) else {
            return Ok(());
        };
        let old = found.placement;
        self.room.move_use(old.used, used)?;
        let payload = Placement {
            used,
            stand: old.stand,
        };
        self.heads.set_payload(found.handle, payload);
        Ok(())
    }

    /// The object of the number, where there is one, has one more hit. It takes no memory.
    pub fn count_hit(&mut self, number: u64)
        ensures { self.new ≡ with_hit number self.old }
    {
        if let Some(found) = find(&self.heads, number) {
            self.heads.count_hit(found.handle);
        }
    }

    /// Issues the ban at the moment. No object is tested on it. Where memory is wanting all is as before.
    pub fn ban(&mut self, alloc: Global, moment: u64, ban: &Shared<Ban>) -> Result<(), AllocError>
        requires { self.old.issued + 1 < 2 ^ 64 }
        ensures ok { OnOk result (self.new ≡ banned_late moment ban.now self.old) }
        ensures err { OnErr result (self.new ≡ self.old) }
    {
        let number = self.bans.issued() + 1;
        self.bans.issue(alloc, moment, ban)?;
        if !object_only(ban) {
            return Ok(());
        }
        self.newest = number;
        self.unswept = self.bans.objects();
        Ok(())
    }

    /// The lines of the bans that are kept, as a reply shows them.
    pub fn ban_lines(&self, alloc: Global) -> Result<Sequence<BanLine>, AllocError>
        ensures { IfOk result (λ lines. lines ≡ self.now.lines) }
    {
        self.bans.shown(alloc)
    }

    /// What all objects take of the room together, in bytes. It takes no memory.
    pub fn total(&self) -> u64
        ensures { result ≡ sizes_late self.now.objects }
    {
        self.room.total()
    }

    /// Puts one more object first, of these xkeys and this size, which was used later than all others and was tested on all bans
    /// on objects alone. Where memory is wanting all is as before.
    pub(crate) fn put_item(
        &mut self,
        alloc: Global,
        item: Item<Placement>,
        keys: Sequence<Text>,
        size: u64,
    ) -> Result<(), AllocError>
        requires later { AreUsedBefore item.payload.used self.old.objects }
        requires own { list_any (is_numbered item.view.number) self.old.objects ≡ false }
        requires place { item.payload.stand.place ≤ self.old.issued }
        requires mark { item.payload.stand.mark ≡ self.old.issued }
        requires keys { keys ≡ xkeys_of item.view.object }
        requires size { size ≡ size_of item.view.object }
        requires fits { sizes_late self.old.objects + size < 2 ^ 64 }
        ensures ok { OnOk result (self.new ≡ with_first (placed_in item) self.old) }
        ensures err { OnErr result (self.new ≡ self.old) }
    {
        // that the numbers fall along the lines
        let _issued = self.bans.issued();
        let used = item.payload.used;
        let stand = item.payload.stand;
        let handle = u64::MAX - used;
        let end = end_of(&item.view.object);
        self.room.put_last(used, Member { handle, size, end })?;
        if self.tagged.put_first(alloc, handle, keys).is_err() {
            self.room.take(used);
            return Err(AllocError);
        }
        if self.heads.put_first(alloc, handle, item).is_err() {
            self.tagged.take(handle);
            self.room.take(used);
            return Err(AllocError);
        }
        self.bans.enter(stand);
        Ok(())
    }

    /// The number of an object that isn't in time at the moment. It takes no memory.
    pub(crate) fn ended(&self, moment: u64) -> Option<u64>
        ensures apart { AreApart number_in self.now.objects }
        ensures some { IfSome result (λ number. list_any (is_ended_as moment number) self.now.objects ≡ true) }
        ensures none { IfNone result (AllByRecursion (λ placed. in_time moment placed.view.object ≡ true) self.now.objects) }
    {
        match self.room.expired(moment) {
            Some(handle) => number_at(&self.heads, handle),
            None => None,
        }
    }

    /// The numbers of the objects that have to go so that a new one of this size finds room in the stale one's place: the least
    /// recently used, as many as are needed. None where more than 50 would have to go, or the new one is larger than the room. An
    /// error means that memory was wanting.
    pub fn least_out(
        &self,
        alloc: Global,
        stale: Option<u64>,
        room: u64,
        size: u64,
    ) -> Result<Option<Vec<u64>>, AllocError>
        ensures { IfOk result (λ out. MatchOption out
            (lacks_room room size (others_late stale self.now.objects) ≡ true)
            (λ numbers. AreDisplaced room size stale self.now.objects numbers.items)) }
    {
        // that each use is later than those before it
        let _total = self.room.total();
        let but = last_use(&self.heads, stale);
        match self.room.least_out(alloc, but, room, size)? {
            Some(handles) => Ok(Some(numbers_at(&self.heads, alloc, &handles)?)),
            None => Ok(None),
        }
    }

    // The number of the newest ban: an object with this mark doesn't wait for the lurker.
    pub(crate) fn newest_mark(&self) -> u64
        ensures count { result ≡ self.now.issued }
        ensures swept { (placed : Placed) → is_unswept (kept_bans self.now) (marked_at self.now.issued placed) ≡ false }
    {
        self.bans.issued()
    }

    // An object that waits for the lurker, from where it goes on.
    fn waiting(&self) -> Option<Waiting>
        ensures apart { AreApart number_in self.now.objects }
        ensures some { IfSome result (λ waiting. list_any (is_waiting_as waiting.number (kept_bans self.now)) self.now.objects ≡ true) }
        ensures none { IfNone result (count_unswept self.now ≡ 0) }
    {
        if self.unswept == 0 {
            return None;
        }
        waiting_round(&self.heads, self.cursor, self.newest)
    }

    // The number of an object that waits for the lurker. The next time it goes on from there.
    pub(crate) fn next_waiting(&mut self) -> Option<u64>
        ensures same { self.new ≡ self.old }
        ensures apart { AreApart number_in self.old.objects }
        ensures some { IfSome result (λ number. list_any (is_waiting_as number (kept_bans self.old)) self.old.objects ≡ true) }
        ensures none { IfNone result (count_unswept self.old ≡ 0) }
    {
        let waiting = self.waiting()?;
        self.cursor = waiting.handle;
        Some(waiting.number)
    }

    /// Tests so many of the objects that wait for the lurker on all bans on objects alone, or all where they are fewer, and
    /// says how many those were. One that a ban matches goes. An error means that memory was wanting; some were tested then.
    pub fn lurk(&mut self, alloc: Global, count: u32) -> Result<u32, AllocError>
        ensures swept { IfOk result (λ swept. (swept ≡ min count (count_unswept self.old)) × (count_unswept self.new ≡ count_unswept self.old - swept)) }
        ensures only { AreSwept self.old self.new }
    {
        for swept in 0..count {
            let number = match self.next_waiting() {
                Some(number) => number,
                None => return Ok(swept),
            };
            let _mark = self.newest_mark();
            self.sweep(alloc, number)?;
        }
        Ok(count)
    }

    /// An object that waits for the lurker, with the bans on objects alone that it is to be tested on; none where no object
    /// waits. An error means that memory was wanting.
    pub fn chore(&self, alloc: Global) -> Result<Option<Chore>, AllocError>
        ensures idle { IfOk result (λ chore. (chore ≡ None) ↔ (count_unswept self.now ≡ 0)) }
        ensures work { IfOk result (λ chore. IfSome chore (IsChoreIn self.now)) }
    {
        match self.waiting() {
            Some(waiting) => Ok(Some(self.chore_on(alloc, waiting.number)?)),
            None => Ok(None),
        }
    }

    // The chore of the object of the number, which waits.
    fn chore_on(&self, alloc: Global, number: u64) -> Result<Chore, AllocError>
        requires { list_any (is_waiting_as number (kept_bans self.now)) self.now.objects ≡ true }
        ensures { IfOk result (IsChoreIn self.now) }
    {
        let Some(item) = self.item(number) else {
            unreachable!()
        };
        let mark = item.payload.stand.mark;
        let view = item.view.copy()?;
        let upto = self.issued();
        Ok(Chore {
            object: view.number,
            mark,
            upto,
            view,
            bans: self.bans_above(alloc, mark)?,
        })
    }

    fn bans_above(&self, alloc: Global, mark: u64) -> Result<BanRun, AllocError>
        ensures { IfOk result (λ bans. bans ≡ above mark (kept_bans self.now)) }
    {
        // that the numbers fall along the lines
        let _issued = self.bans.issued();
        bans_above(&self.bans, alloc, mark)
    }

    /// Takes out the oldest lines, as far as no object waits for them: one waits for the oldest that is left. It takes no memory.
    pub fn cut(&mut self)
        ensures cut { AreCut self.old self.new }
        ensures oldest { IsOldestNeeded self.new }
        ensures waiting { count_unswept self.new ≡ count_unswept self.old }
    {
        // that the numbers fall along the lines
        let _issued = self.bans.issued();
        self.bans.cut();
    }

    /// Takes out each line that no object waits for, wherever it stands. It goes over all lines, and takes no memory.
    pub fn keep_needed(&mut self)
        ensures { self.new ≡ with_needed self.old }
    {
        // that the numbers fall along the lines
        let _issued = self.bans.issued();
        self.bans.keep_needed();
    }

    // The place of the object that the verdict is on, where that is as the verdict has it and waits for the lurker.
    fn place_of_open(&self, verdict: Verdict) -> Option<u64>
        ensures { result ≡ option_map (λ (placed : Placed). placed.place) (seek (is_open (kept_bans self.now) verdict) self.now.objects) }
    {
        let stand = match find(&self.heads, verdict.object) {
            Some(found) => found.placement.stand,
            None => return None,
        };
        if stand.mark != verdict.mark {
            return None;
        }
        if !is_waiting(self.unswept, self.newest, stand.mark) {
            return None;
        }
        Some(stand.place)
    }

    /// Does with an object what was found of it: a dead one goes, and any other counts as tested up to the verdict's ban. Where
    /// the object isn't as the verdict has it, or doesn't wait for the lurker, or the verdict is on bans that weren't issued,
    /// nothing changes and the answer is false. It takes no memory.
    pub fn settle(&mut self, verdict: Verdict) -> bool
        ensures answer { result ≡ is_settled verdict self.old }
        ensures left { self.new ≡ settled verdict self.old }
    {
        if !is_sound(self.issued(), verdict) {
            return false;
        }
        let place = match self.place_of_open(verdict) {
            Some(place) => place,
            None => return false,
        };
        self.close(verdict, place);
        self.go_on_from(verdict.object);
        true
    }

    // The lurker goes on from the object of the number, where there is one.
    fn go_on_from(&mut self, number: u64)
        ensures { self.new ≡ self.old }
    {
        if let Some(handle) = self.heads.handle_of(number) {
            self.cursor = handle;
        }
    }

    // Settles the verdict on the object, which has the place.
    fn close(&mut self, verdict: Verdict, place: u64)
        requires sound { is_sound_for self.old.issued verdict ≡ true }
        requires open_ { Some place ≡ option_map (λ (placed : Placed). placed.place) (seek (is_open (kept_bans self.old) verdict) self.old.objects) }
        ensures { self.new ≡ judged_lazy verdict self.old }
    {
        let _item = self.item(verdict.object);
        if verdict.dead {
            self.remove(verdict.object);
            return;
        }
        let _issued = self.issued();
        let mark = verdict.upto;
        self.move_to(verdict.object, Stand { place, mark });
    }
}

// Whether the verdict is on bans that were issued, and not on fewer than the object was tested on.
fn is_sound(issued: u64, verdict: Verdict) -> bool
    ensures { result ≡ is_sound_for issued verdict }
{
    verdict.dead || verdict.mark <= verdict.upto && verdict.upto <= issued
}
