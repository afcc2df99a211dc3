// The cache, framed: a desk and a shelf, with the history of what was answered.
ghost use Rattle.std.specs.Prelude.{◌≡◌, ◌∷◌, ◌++◌, ◌+◌, ◌*◌, ◌^◌, ◌<◌, ◌≤◌, ◌↔◌, [], true, false, length, IsTrue, IfOk, IsErrOf, IsOk, OnOk, OnErr};
ghost use Rattle.std.specs.Vec.{vec_capacity};
ghost use Rattle.cache_law.specs.ShownBans.{AllShown, those_open};
ghost use Rattle.cache_law.specs.State.{at_moment};
ghost use Rattle.cache_law.specs.Law.{answered};
ghost use Rattle.cache_law.specs.declared.call.Reply.TheVariants.{Refused};
ghost use Rattle.cache_law.specs.Bases.{IsBase};
ghost use Rattle.cache_law.specs.Core.{is_closing as closes_only, is_kept, is_lookup};
ghost use Rattle.cache_law.specs.History.{Fits, is_numbered, most_entries, reached};
ghost use Rattle.cache_desk.specs.Desk.{bare};
ghost use Rattle.cache_frame.specs.Asked.{is_untested};
ghost use Rattle.cache_frame.specs.Found.{FindsFor, is_insertion};
ghost use Rattle.cache_frame.specs.Framed.{FitsIf, FitsNot, HasFit, HasRoomBehind, IsWithin, base_with};
ghost use Rattle.cache_frame.specs.Answering.{entry_answered};
ghost use Rattle.cache_frame.specs.Shelves.{StandsOn};
ghost use Rattle.cache_frame.specs.Step.{Answered};
ghost use Rattle.cache_desk.specs.Stock.{Stock, with_stock};

use crate::calls::{answer, find, open_after, open_refused, refuse};
use crate::finding::{Asked, is_untested};
use crate::listing::ListingShelf;
use crate::shelf::Shelf;
use ban_lurker::{Chore, LurkCore, Verdict};
use cache_desk::{Answer, Desk};
use cache_law::{
    BanLine, Boot, CacheCore, Call, Entry, Kept, Params, StepError, Told, entry_bytes,
};
use std::alloc::{AllocError, Global};
use std::marker::Model;
use std::snapshot::Snapshot;
use units::{Sequence, out_of_memory};

/// A cache whose objects and bans are on the shelf. It implements `CacheCore` and `LurkCore`, and is made by its `make`.
#[derive(Drop)]
pub struct Framed<S: Shelf> {
    params: Params,
    // the desk and the shelf as they were before the first entry
    base_desk: Snapshot<Desk>,
    base_shelf: Snapshot<S>,
    entries: Vec<Entry>,
    // what the entries take of the history
    used: u64,
    desk: Desk,
    shelf: S,
}

impl<S: Shelf> Model for Framed<S> {
    ghost use Rattle.std.specs.Vec.{vec_capacity};
    ghost use Rattle.cache_frame.specs.Framed.{Plain, Sound, base_with};

    ghost Value = { Plain };

    ghost view = { λ f. record {
      beginning = record { params = f.params; base = base_with f.base_desk.value (S.stock f.base_shelf.value) };
      entries = f.entries.items;
      unswept = S.unswept f.shelf;
    } };

    ghost invariant = { λ f. Sound S.Stands (record { params = f.params; base = base_with f.base_desk.value (S.stock f.base_shelf.value) }) f.entries.items (vec_capacity f.entries) f.used f.desk f.shelf };
}

impl<S: Shelf> CacheCore for Framed<S> {
    ghost beginning = { λ c. c.beginning };

    ghost history = { λ c. c.entries };

    fn make(alloc: Global, params: &Params, boot: Boot) -> Result<Framed<S>, AllocError> {
        let desk = match Desk::new(alloc, &boot) {
            Ok(desk) => desk,
            Err(_) => return Err(out_of_memory(boot)),
        };
        drop(boot);
        match S::empty(alloc) {
            Ok(shelf) => Ok(over(alloc, *params, desk, shelf)),
            Err(_) => Err(out_of_memory(desk)),
        }
    }

    fn step(
        &mut self,
        alloc: Global,
        caller: u32,
        reading: u64,
        call: Call,
    ) -> Result<Told, StepError> {
        if self.is_full_for(caller, &call) {
            return Err(given_up(call, StepError::SegmentFull));
        }
        let moment = self.desk.moment().max(reading);
        let fitting = fit(
            alloc,
            &self.params,
            self.used,
            &self.desk,
            &self.shelf,
            caller,
            moment,
            &call,
        );
        let fitted = match fitting {
            Ok(fitted) => fitted,
            Err(error) => return Err(given_up(call, error)),
        };
        let entries = self.desk.entries();
        let answered = answer_within(
            alloc,
            &mut self.entries,
            &mut self.desk,
            &mut self.shelf,
            self.params.room,
            caller,
            moment,
            &call,
            fitted.asked,
            fitted.closings,
        );
        let answer = match answered {
            Ok(answer) => answer,
            Err(_) => return Err(given_up(call, StepError::NoMemory)),
        };
        let place = self.entries.len() as u64;
        self.used += entry_bytes(&call) as u64;
        let entry = Entry {
            caller,
            moment,
            call,
            reply: answer.kept,
        };
        push_within_room(&mut self.entries, entry);
        self.desk.set_entries(entries + 1);
        Ok(Told {
            moment,
            place,
            reply: answer.told,
        })
    }

    fn bytes(&self) -> u64 {
        self.used
    }

    fn awaits(&self, caller: u32) -> Option<u64> {
        self.desk.awaits(caller)
    }

    fn closed(&self, token: u64) -> bool {
        self.desk.closed(token)
    }

    fn is_full_for(&self, caller: u32, call: &Call) -> bool {
        self.params.segments
            && !self.desk.has_round(caller)
            && !is_closing(call)
            && !self.entries.is_empty()
            && self.params.history / 2 <= self.used
    }

    fn is_idle(&self) -> bool {
        self.desk.is_idle()
    }

    fn reopen(self, alloc: Global) -> Result<(Sequence<Entry>, Framed<S>), Kept<Framed<S>>> {
        let Framed {
            params,
            base_desk,
            base_shelf,
            entries,
            used,
            desk,
            shelf,
        } = self;
        let mut shelf = shelf;
        if shelf.cut(alloc, desk.moment()).is_err() {
            let core = Framed {
                params,
                base_desk,
                base_shelf,
                entries,
                used,
                desk,
                shelf,
            };
            return Err(Kept { core });
        }
        Ok((
            Sequence::from_vec(entries),
            over(alloc, params, desk, shelf),
        ))
    }

    fn into_history(self) -> Sequence<Entry> {
        Sequence::from_vec(self.entries)
    }
}

impl<S: Shelf> LurkCore for Framed<S> {
    ghost unswept = { λ core. core.unswept };

    fn lurk(&mut self, alloc: Global, count: u32) -> Result<u32, AllocError> {
        self.shelf.lurk(alloc, self.desk.moment(), count)
    }

    fn chore(&self, alloc: Global) -> Result<Option<Chore>, AllocError> {
        self.shelf.chore(alloc, self.desk.moment())
    }

    fn settle(&mut self, verdict: Verdict) -> bool {
        self.shelf.settle(verdict)
    }
}

impl<S: Shelf> Framed<S> {
    /// Whether an entry of the call, answered so, fits behind a history of so many bytes that reached this state. A step asks the
    /// same of its own history. An error means that memory was wanting, which a refusal never wants.
    pub fn fits(
        &self,
        alloc: Global,
        used: u64,
        caller: u32,
        moment: u64,
        call: &Call,
        answering: Answering,
    ) -> Result<bool, AllocError>
        requires { (reached self.now.beginning self.now.entries).moment ≤ moment }
        ensures told { IfOk result (λ fits. IsTrue fits ↔ Fits self.now.beginning.params (reached self.now.beginning self.now.entries) used
            (entry_answered answering self.now.beginning.params (reached self.now.beginning self.now.entries) caller moment call.now)) }
        ensures refused { answering ≡ Answering.Refused → IsOk result }
    {
        match answering {
            Answering::ByLaw => fits_by_law(
                alloc,
                &self.params,
                used,
                &self.desk,
                &self.shelf,
                caller,
                moment,
                call,
            ),
            Answering::Refused => {
                let open = open_refused(&self.desk, call);
                Ok(is_within(self.params.history, used, self.desk.entries(), call, open))
            }
        }
    }
}

/// The most entries that a run makes.
const MOST_ENTRIES: u128 = 1 << 63;

/// A cache that begins with what is on the desk and on the shelf.
fn over<S: Shelf>(alloc: Global, params: Params, desk: Desk, shelf: S) -> Framed<S>
    requires base { IsBase (base_with desk (S.stock shelf)) }
    requires stands { S.Stands shelf (record { params = params; base = base_with desk (S.stock shelf) }) [] }
    requires few { desk.entries ≤ most_entries }
    ensures { result ≡ record { beginning = record { params = params; base = base_with desk (S.stock shelf) }; entries = []; unswept = S.unswept shelf } }
{
    Framed {
        params,
        base_desk: Snapshot::of(&desk),
        base_shelf: Snapshot::of(&shelf),
        entries: Vec::new(alloc),
        used: 0,
        desk,
        shelf,
    }
}

/// Whether the call opens nothing.
fn is_closing(call: &Call) -> bool
    ensures { result ≡ closes_only call.now }
{
    match call {
        Call::Drop { .. } | Call::End => true,
        Call::Begin | Call::Draw | Call::Lookup(_) | Call::Pick { .. } => false,
        Call::Insert { .. } | Call::Ban(_) | Call::BanList | Call::Purge { .. } => false,
        Call::Xkey { .. } | Call::SetHealth { .. } | Call::Load(_) => false,
        Call::Switch { .. } | Call::Discard { .. } | Call::VclList => false,
    }
}

/// How a call is answered, as far as it decides whether its entry fits.
#[derive(Clone, Copy)]
pub enum Answering {
    /// As the law says, or by one of several lists of bans.
    ByLaw,
    /// That memory was wanting.
    Refused,
}

/// Lets go of what belongs to a call that isn't answered.
fn given_up<T: Drop>(_asked: T, error: StepError) -> StepError
    ensures { result ≡ error }
{
    error
}

/// A call that fits: what it asked, and how many rounds and fetches are open behind what it is judged by.
#[derive(Drop)]
struct Fitted<M> {
    asked: Asked<M>,
    closings: usize,
}

/// Whether the call fits behind a history of so many bytes, or, where its stale object couldn't be tested, its refusal. That it
/// doesn't is told before want of memory, but for a lookup.
fn fit<S: Shelf>(
    alloc: Global,
    params: &Params,
    used: u64,
    desk: &Desk,
    shelf: &S,
    caller: u32,
    moment: u64,
    call: &Call,
) -> Result<Fitted<S::Marks>, StepError>
    ensures found { IfOk result (λ fitted. FindsFor S.Stands S.IsMarked desk.now shelf.now moment caller call.now fitted.asked) }
    ensures fits { IfOk result (λ fitted. HasFit S.Stands params.now used desk.now shelf.now moment caller call.now (is_untested fitted.asked) fitted.closings) }
    ensures full { IsErrOf result StepError.HistoryFull → FitsNot S.Stands params.now used desk.now shelf.now moment caller call.now }
    ensures wanting { is_lookup call.now ≡ false → IsErrOf result StepError.NoMemory → ⊥ }
    ensures segment { IsErrOf result StepError.SegmentFull → ⊥ }
{
    let asked = match find(alloc, desk, shelf, caller, moment, call) {
        Ok(asked) => asked,
        Err(_) => return Err(StepError::NoMemory),
    };
    let open = open_after(desk, shelf, caller, moment, call, &asked);
    if !desk.is_numbered(call) {
        return Err(given_up(asked, StepError::HistoryFull));
    }
    if !is_within(params.history, used, desk.entries(), call, open) {
        return Err(given_up(asked, StepError::HistoryFull));
    }
    Ok(Fitted {
        asked,
        closings: open as usize,
    })
}

/// Whether the entry of the call, answered as the law says, fits behind a history of so many bytes.
fn fits_by_law<S: Shelf>(
    alloc: Global,
    params: &Params,
    used: u64,
    desk: &Desk,
    shelf: &S,
    caller: u32,
    moment: u64,
    call: &Call,
) -> Result<bool, AllocError>
    ensures { IfOk result (λ fits. FitsIf S.Stands params.now used desk.now shelf.now moment caller call.now fits) }
{
    let asked = find(alloc, desk, shelf, caller, moment, call)?;
    if is_untested(&asked) {
        return Err(out_of_memory(asked));
    }
    let open = open_after(desk, shelf, caller, moment, call, &asked);
    drop(asked);
    let numbered = desk.is_numbered(call);
    let within = is_within(params.history, used, desk.entries(), call, open);
    Ok(numbered && within)
}

/// Answers the call, which asked so, where there is room for its entry and for those that will close what is open behind
/// it, so many in number. Without that room, and where its stale object couldn't be tested, an insertion of an open fetch is
/// refused, in the room that was kept for it.
fn answer_within<S: Shelf>(
    alloc: Global,
    entries: &mut Vec<Entry>,
    desk: &mut Desk,
    shelf: &mut S,
    room: u64,
    caller: u32,
    moment: u64,
    call: &Call,
    asked: Asked<S::Marks>,
    closings: usize,
) -> Result<Answer, AllocError>
    requires found { FindsFor S.Stands S.IsMarked desk.old shelf.old moment caller call.now asked }
    requires numbers { desk.old.next + 1 < 2 ^ 64 }
    requires issues { (S.stock shelf.old).issued + 1 < 2 ^ 64 }
    requires vcls { (stock : Stock) → is_numbered (answered room (at_moment moment (with_stock stock (bare desk.old))) caller call.now).reply ≡ true }
    requires bound { closings < 2 ^ 63 }
    requires frees { is_kept (bare desk.old) caller call.now ≡ true → is_insertion desk.old caller call.now ≡ false → closings + 1 ≤ length desk.old.rounds + length desk.old.fetches }
    requires reserved { length entries.old.items + length desk.old.rounds + length desk.old.fetches ≤ vec_capacity entries.old }
    ensures ok { IfOk result (Answered S.Stands room desk.old shelf.old desk.new shelf.new caller moment call.now) }
    ensures refuses { is_untested asked ≡ true → IfOk result (λ answer. answer.told ≡ Refused) }
    ensures same { entries.new.items ≡ entries.old.items }
    ensures left { OnOk result (HasRoomBehind (length entries.new.items) (vec_capacity entries.new) closings desk.old desk.new) }
    ensures larger { vec_capacity entries.old ≤ vec_capacity entries.new }
    ensures desk { OnErr result (desk.new ≡ desk.old) }
    ensures shelf { OnErr result (StandsOn S.Stands shelf.old shelf.new) }
    ensures kept { is_kept (bare desk.old) caller call.now ≡ true → IsOk result }
{
    let mut asked = asked;
    if is_untested(&asked) || entries.try_reserve(closings + 1).is_err() {
        drop(asked);
        return match refuse(desk, caller, moment, call) {
            Some(answer) => Ok(answer),
            None => Err(AllocError),
        };
    }
    let answered = answer(alloc, desk, shelf, room, caller, moment, call, &mut asked);
    drop(asked);
    answered
}

/// Whether the entry of the call fits a history of this limit and of so many bytes, in a run of so many entries, where it leaves so
/// many rounds and fetches open.
fn is_within(limit: u64, used: u64, entries: u64, call: &Call, closings: u128) -> bool
    requires { closings ≤ 2 ^ 65 }
    ensures { IsTrue result ↔ IsWithin limit used entries call.now closings }
{
    let bytes = entry_bytes(call)
        .saturating_add(u128::from(used))
        .saturating_add(64 * closings);
    bytes <= u128::from(limit) && u128::from(entries) + 1 + closings <= MOST_ENTRIES
}

/// Puts the entry at the end, where there is room for it.
fn push_within_room(entries: &mut Vec<Entry>, entry: Entry)
    requires { length entries.old.items < vec_capacity entries.old }
    ensures entries { entries.new.items ≡ entries.old.items ++ entry ∷ [] }
    ensures room { vec_capacity entries.old ≤ vec_capacity entries.new }
{
    let _ = entries.push(entry);
}

impl<S: ListingShelf> Framed<S> {
    /// The moment of the newest entry.
    pub fn moment(&self) -> u64
        ensures { result ≡ (reached self.now.beginning self.now.entries).moment }
    {
        self.desk.moment()
    }

    /// Whether the lines show, at the moment, each ban that an object has still to be tested on. It takes no memory.
    pub fn shows(&self, moment: u64, lines: &[BanLine]) -> bool
        requires { (reached self.now.beginning self.now.entries).moment ≤ moment }
        ensures { IsTrue result ↔ AllShown (those_open lines.now) (at_moment moment (reached self.now.beginning self.now.entries)).objects }
    {
        self.shelf.shows(moment, lines)
    }
}
