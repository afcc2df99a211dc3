// The lock and its calls.
ghost use Rattle.std.specs.Prelude.{◌≡◌, ◌<◌, true, [], ◌∷◌, IfOk, IfErr, Some};

use crate::bell::Bell;
use crate::chronicle::Chronicle;
use crate::handles::{Held, Pass, Returned};
use crate::knowledge::View;
use crate::rule::{Key, Turns};
use atomic_table::{Badge, Refused, Table};
use std::alloc::{AllocFailed, Global};
use std::mem;
use std::snapshot::Snapshot;
use std::sync::Wait;
use std::sync::atomic::AtomicU64;

type TurnTable<T> = Table<
    Option<T>,
    View<<T as Chronicle>::Entry, <T as Chronicle>::Setting>,
    Key<T>,
    Turns<T>,
    Global,
>;

// The value as the one slot of a table.
fn in_a_slot<T>(alloc: Global, value: T) -> Result<Vec<Option<T>>, Returned<T>>
    ensures ok { IfOk result (λ slots. slots.items ≡ Some value ∷ []) }
    ensures err { IfErr result (λ r. r.value ≡ value) }
{
    let mut slots = Vec::new(alloc);
    match slots.push(Some(value)) {
        Ok(()) => Ok(slots),
        Err(AllocFailed { value }) => {
            slots.destroy_empty();
            let Some(value) = value else { unreachable!() };
            Err(Returned { value })
        }
    }
}

// The value out of that slot.
fn out_of_slot<T>(mut slots: Vec<Option<T>>) -> T
    requires { (x : T) × (slots.items ≡ Some x ∷ []) }
    ensures { slots.items ≡ Some result ∷ [] }
{
    let Some(Some(value)) = slots.pop() else {
        unreachable!()
    };
    slots.destroy_empty();
    value
}

/// A lock round a value with a history. Threads share it by reference, each with a pass of its own.
#[derive(Drop)]
pub struct Turnstile<T: Chronicle> {
    pub(crate) table: TurnTable<T>,
    // Threads that sleep until the turn goes on.
    pub(crate) line: Bell,
    // Threads that sleep before they draw a ticket.
    pub(crate) lobby: Bell,
    // 1 while a thread that was woken in the lobby hasn't drawn its ticket.
    pub(crate) called: AtomicU64,
    // Threads that sleep until another turn may have changed the value.
    pub(crate) news: Bell,
    ghost sized: { (table.shared.table_id.words ≡ 2) × (table.shared.table_id.slots ≡ 1) },
}

impl<T: Chronicle> Turnstile<T> {
    ghost use Rattle.turnstile.specs.Knowledge.{opened, saw, cut_off, branch, merged, Grown, Meets, Leaves, GainsPlaces};
    ghost use Rattle.turnstile.specs.Handles.{known, held_known, number_of, IsPassOf, IsHeldOf};

    /// A lock round the value, which has no entry yet, and the first pass, under the number `first`, with every number
    /// above it to give. For want of memory the value comes back.
    pub fn new(
        alloc: Global,
        value: T,
        first: u32,
    ) -> Result<(Turnstile<T>, Pass<T::Entry, T::Setting>), Returned<T>>
        requires empty { T.history value ≡ [] }
        requires sound { T.Sound value }
        ensures pass { IfOk result (λ r. IsPassOf r.0 r.1 × (known r.1 ≡ opened first (T.setting value))) }
        ensures err { IfErr result (λ r. r.value ≡ value) }
    {
        let key = Key {
            first: u64::from(first),
            value: Snapshot::of(&value),
        };
        let slots = in_a_slot(alloc, value)?;
        match Table::new(alloc, &[0, 0], slots, &key) {
            Ok((table, seat)) => Ok((
                Turnstile::over(table),
                Pass {
                    badge: seat.into_badge(),
                    number: first,
                },
            )),
            Err(Refused { slots }) => Err(Returned {
                value: out_of_slot(slots),
            }),
        }
    }

    /// Splits off a pass for another caller, which has seen what this one has. The caller's number lies in the span of
    /// this pass, above its own; the new pass has the span from there upwards, and this one what is left below. It takes
    /// no memory.
    pub fn split(
        &self,
        pass: &mut Pass<T::Entry, T::Setting>,
        caller: u32,
    ) -> Pass<T::Entry, T::Setting>
        requires pass { IsPassOf self.now pass.old }
        requires above { (known pass.old).number < caller }
        requires within { caller < (known pass.old).upto }
        ensures pass { IsPassOf self.now pass.new × (known pass.new ≡ cut_off (known pass.old) caller) }
        ensures new { IsPassOf self.now result × (known result ≡ branch (known pass.old) caller) }
    {
        let mut seat = mem::replace(&mut pass.badge, Badge::blank()).into_seat();
        let part = self.cut(&mut seat, caller);
        pass.badge = seat.into_badge();
        Pass {
            badge: part.into_badge(),
            number: caller,
        }
    }

    /// Joins another pass into this one, which then has the longer of the two histories that they had seen. The other's
    /// number is ended. It takes no memory.
    pub fn join(&self, pass: &mut Pass<T::Entry, T::Setting>, other: Pass<T::Entry, T::Setting>)
        requires pass { IsPassOf self.now pass.old }
        requires other { IsPassOf self.now other }
        ensures pass { IsPassOf self.now pass.new × (known pass.new ≡ merged T.caller (known pass.old) (known other)) }
        ensures seen { Grown T.caller (known pass.old) (known pass.new).seen }
        ensures other_seen { Grown T.caller (known other) (known pass.new).seen }
    {
        let mut seat = mem::replace(&mut pass.badge, Badge::blank()).into_seat();
        let Pass { badge, number: _ } = other;
        self.merge(&mut seat, badge.into_seat());
        pass.badge = seat.into_badge();
    }

    /// Waits for a turn. Until it is given back the pass is blank.
    pub fn turn<R: Wait>(&self, rt: &R, pass: &mut Pass<T::Entry, T::Setting>) -> Held<T>
        requires pass { IsPassOf self.now pass.old }
        ensures number { number_of pass.new ≡ number_of pass.old }
        ensures held { IsHeldOf self.now result × (held_known result ≡ saw (known pass.old) (T.history result.value)) }
        ensures history { Meets T.caller (known pass.old) (T.history result.value) }
        ensures setting { (known pass.old).setting ≡ Some (T.setting result.value) }
        ensures sound { T.Sound result.value }
    {
        self.enter(rt);
        let mut seat = mem::replace(&mut pass.badge, Badge::blank()).into_seat();
        let ticket = self.draw(&mut seat);
        self.wait(rt, &mut seat, ticket);
        let value = self.take(&mut seat);
        Held { value, seat }
    }

    /// Gives the turn back. The value's history is as it was, or has one more entry, of the pass's caller.
    pub fn give_back(&self, pass: &mut Pass<T::Entry, T::Setting>, held: Held<T>)
        requires held { IsHeldOf self.now held × ((held_known held).number ≡ number_of pass.old) }
        requires history { Leaves T.caller (held_known held) (T.history held.value) }
        requires setting { (held_known held).setting ≡ Some (T.setting held.value) }
        requires sound { T.Sound held.value }
        ensures pass { IsPassOf self.now pass.new × (known pass.new ≡ saw (held_known held) (T.history held.value)) }
        ensures mine { GainsPlaces T.caller (held_known held) (known pass.new) }
    {
        self.pass_on(pass, held);
        self.news.ring_all();
    }

    /// Gives the turn back without an entry. No token can have closed, so nobody who waits for one is woken.
    pub fn pass_by(&self, pass: &mut Pass<T::Entry, T::Setting>, held: Held<T>)
        requires held { IsHeldOf self.now held × ((held_known held).number ≡ number_of pass.old) }
        requires history { T.history held.value ≡ (held_known held).seen }
        requires setting { (held_known held).setting ≡ Some (T.setting held.value) }
        requires sound { T.Sound held.value }
        ensures pass { IsPassOf self.now pass.new × (known pass.new ≡ held_known held) }
        ensures number { number_of pass.new ≡ number_of pass.old }
    {
        self.pass_on(pass, held);
    }

    /// Waits for a turn in which the token is closed. Where it isn't yet, the turn is passed on, with nothing done, and
    /// the next one taken after another thread has had one.
    pub fn turn_when<R: Wait>(
        &self,
        rt: &R,
        pass: &mut Pass<T::Entry, T::Setting>,
        token: u64,
    ) -> Held<T>
        requires pass { IsPassOf self.now pass.old }
        ensures number { number_of pass.new ≡ number_of pass.old }
        ensures held { IsHeldOf self.now result × (held_known result ≡ saw (known pass.old) (T.history result.value)) }
        ensures history { Meets T.caller (known pass.old) (T.history result.value) }
        ensures setting { (known pass.old).setting ≡ Some (T.setting result.value) }
        ensures sound { T.Sound result.value }
        ensures closed { T.closed (T.setting result.value) token (T.history result.value) ≡ true }
    {
        'turns: for _ in rt.forever() {
            let held = self.turn(rt, pass);
            if held.value.is_closed(token) {
                return held;
            }
            let heard = self.news.lie_down();
            self.pass_on(pass, held);
            self.news.sleep(rt, heard);
        }
        unreachable!()
    }

    /// Takes a last turn, so that it has the value whatever other passes do, and ends the lock. It takes no memory.
    pub fn close<R: Wait>(
        self,
        rt: &R,
        mut pass: Pass<T::Entry, T::Setting>,
    ) -> (T, Pass<T::Entry, T::Setting>)
    where
        T: Drop,
        requires pass { IsPassOf self pass }
        ensures known { known result.1 ≡ saw (known pass) (T.history result.0) }
        ensures history { Meets T.caller (known pass) (T.history result.0) }
        ensures setting { (known pass).setting ≡ Some (T.setting result.0) }
        ensures sound { T.Sound result.0 }
    {
        let Held { value, mut seat } = self.turn(rt, &mut pass);
        self.leave(&mut seat);
        pass.badge = seat.into_badge();
        (value, pass)
    }

    fn over(table: TurnTable<T>) -> Turnstile<T>
        requires { (table.shared.table_id.words ≡ 2) × (table.shared.table_id.slots ≡ 1) }
        ensures { result.table ≡ table }
    {
        Turnstile {
            table,
            line: Bell::new(),
            lobby: Bell::new(),
            called: AtomicU64::new(0),
            news: Bell::new(),
        }
    }

    // Gives the turn back, and wakes who waits for it.
    fn pass_on(&self, pass: &mut Pass<T::Entry, T::Setting>, held: Held<T>)
        requires held { IsHeldOf self.now held × ((held_known held).number ≡ number_of pass.old) }
        requires history { Leaves T.caller (held_known held) (T.history held.value) }
        requires setting { (held_known held).setting ≡ Some (T.setting held.value) }
        requires sound { T.Sound held.value }
        ensures number { number_of pass.new ≡ number_of pass.old }
        ensures pass { IsPassOf self.now pass.new × (known pass.new ≡ saw (held_known held) (T.history held.value)) }
    {
        let Held { value, mut seat } = held;
        self.put(&mut seat, value);
        pass.badge = seat.into_badge();
        self.call_next();
    }
}
