// The tests of the objects in memory, and the changes of them.
ghost use Rattle.std.specs.Prelude.{◌≡◌, ◌==◌, ◌&&◌, ◌+◌, ◌-◌, ◌<◌, ◌≤◌, ◌∷◌, ◌++◌, List, find, get_or, Some, None, filter, OnOk, OnErr};
ghost use Rattle.std.specs.List.{list_all, list_any, position};
ghost use Rattle.std.specs.Option.{option_copied, option_map_or, option_to_list};
ghost use Rattle.std.specs.VecDeque.{deque_len, deque_capacity};
ghost use Rattle.cache_law.specs.declared.ban.Issued.{Issued as IssuedBan};
ghost use Rattle.cache_law.specs.Object.{in_time};
ghost use Rattle.cache_law.specs.State.{is_gone, those_in_time};
ghost use Rattle.flat_core.specs.StoredObject.{counted_at, first_changed, first_of, held_all, is_change, is_of, left_of, moved_on, settled, stays, tested_for, touched_at, using_in};
ghost use Rattle.flat_core.specs.Room.{stays_from};

use crate::room::stays_from;
use crate::stored_object::{Fate, StoredObject};
use cache_frame::Use;
use cache_law::{Object, ObjectView, is_in_time};
use std::alloc::{AllocError, Global};
use std::collections::VecDeque;
use units::Shared;

/// The place of the object in time of this number among the objects.
fn place_of(objects: &VecDeque<StoredObject>, moment: u64, number: u64) -> Option<usize>
    ensures { result ≡ position (is_of moment number) objects.now.items }
{
    objects.iter().position(|kept| kept.view.number == number
        && is_in_time(moment, &kept.view.object))
}

/// Counts a hit of the object at this place of the history.
fn count_in(kept: &mut StoredObject, used: u64)
    ensures { kept.new ≡ counted_at used kept.old }
{
    kept.view.hits = kept.view.hits.saturating_add(1);
    kept.used = used;
}

/// Counts a hit of the object in time of this number.
fn count_hit(objects: &mut VecDeque<StoredObject>, moment: u64, used: u64, number: u64)
    ensures { objects.new.items ≡ first_changed (is_of moment number) (counted_at used) objects.old.items }
{
    if let Some(place) = place_of(objects, moment, number) {
        count_in(&mut objects[place], used);
    }
}

/// Uses the marker at this place of the history.
fn touch_in(kept: &mut StoredObject, used: u64)
    ensures { kept.new ≡ touched_at used kept.old }
{
    kept.used = used;
}

/// Uses the marker in time of this number.
fn touch(objects: &mut VecDeque<StoredObject>, moment: u64, used: u64, number: u64)
    ensures { objects.new.items ≡ first_changed (is_of moment number) (touched_at used) objects.old.items }
{
    if let Some(place) = place_of(objects, moment, number) {
        touch_in(&mut objects[place], used);
    }
}

/// Uses what a lookup used, at this place of the history.
pub(crate) fn use_one(objects: &mut VecDeque<StoredObject>, moment: u64, used: u64, used_as: Use)
    ensures { objects.new.items ≡ using_in moment used used_as objects.old.items }
{
    match used_as {
        Use::Nothing => (),
        Use::Hit(number) => count_hit(objects, moment, used, number),
        Use::Marker(number) => touch(objects, moment, used, number),
    }
}

/// What becomes of the object at the place. Those behind the last fate stay.
fn fate_at(fates: &[Fate], place: usize) -> Fate
    ensures { result ≡ get_or fates.now place Fate.Stays }
{
    match fates.get(place) {
        Some(fate) => *fate,
        None => Fate::Stays,
    }
}

/// What is left of the object, where so many bans were issued.
fn left_of(count: u64, fate: Fate, kept: StoredObject) -> Option<StoredObject>
    ensures { option_to_list result ≡ left_of count fate kept }
{
    match fate {
        Fate::Stays => Some(kept),
        Fate::Tested => Some(StoredObject {
            view: kept.view,
            used: kept.used,
            tested: count,
        }),
        Fate::Goes => None,
    }
}

/// Puts what is left of an object behind the others, where there is room for it.
fn put_last(objects: &mut VecDeque<StoredObject>, left: Option<StoredObject>)
    requires { deque_len objects.old < deque_capacity objects.old }
    ensures items { objects.new.items ≡ objects.old.items ++ option_to_list left }
    ensures capacity { deque_capacity objects.new ≡ deque_capacity objects.old }
    ensures len { deque_len objects.new ≤ deque_len objects.old + 1 }
{
    if let Some(kept) = left {
        objects.push_back_reserved(kept);
    }
}

/// Passes the first object on to the end, as its fate leaves it.
fn settle_first(objects: &mut VecDeque<StoredObject>, fate: Fate, count: u64)
    ensures { objects.new.items ≡ moved_on count fate objects.old.items }
{
    if let Some(kept) = objects.pop_front() {
        put_last(objects, left_of(count, fate, kept));
    }
}

fn is_change(fate: Fate) -> bool
    ensures { result ≡ is_change fate }
{
    match fate {
        Fate::Stays => false,
        Fate::Tested | Fate::Goes => true,
    }
}

fn has_change(fates: &[Fate]) -> bool
    ensures { result ≡ list_any is_change fates.now }
{
    fates.iter().any(|fate| is_change(*fate))
}

/// Leaves of the objects what their fates leave, where so many bans were issued. Where all stay, nothing moves.
pub(crate) fn settle(objects: &mut VecDeque<StoredObject>, fates: &[Fate], count: u64)
    ensures { objects.new.items ≡ settled count fates.now objects.old.items }
{
    if !has_change(fates) {
        return;
    }
    for place in 0..objects.len() {
        settle_first(objects, fate_at(fates, place), count);
    }
}

/// Whether the object stays where one takes the place of the stale one.
pub(crate) fn stays(stale: Option<u64>, kept: &StoredObject) -> bool
    ensures { result ≡ stays stale kept.now }
{
    match stale {
        Some(stale) => kept.view.number != stale,
        None => true,
    }
}

/// Whether an object in time has the number.
fn has_number(objects: &VecDeque<StoredObject>, moment: u64, number: u64) -> bool
    ensures { result ≡ list_any (λ kept. (kept.view.number == number) && in_time moment kept.view.object) objects.now.items }
{
    objects.iter().any(|kept| kept.view.number == number && is_in_time(moment, &kept.view.object))
}

/// Whether a stale object is named that isn't in time, or isn't there.
pub(crate) fn is_gone(objects: &VecDeque<StoredObject>, moment: u64, stale: Option<u64>) -> bool
    ensures { (bans : List IssuedBan) → result ≡ is_gone stale (those_in_time moment (held_all bans objects.now.items)) }
{
    match stale {
        Some(stale) => !has_number(objects, moment, stale),
        None => false,
    }
}

fn are_in_time(objects: &VecDeque<StoredObject>, moment: u64) -> bool
    ensures { result ≡ list_all (λ kept. in_time moment kept.view.object) objects.now.items }
{
    objects
        .iter()
        .all(|kept| is_in_time(moment, &kept.view.object))
}

/// Drops the objects that aren't in time any more. Where there are none, nothing moves.
pub(crate) fn keep_in_time(objects: &mut VecDeque<StoredObject>, moment: u64)
    ensures { objects.new.items ≡ filter (λ kept. in_time moment kept.view.object) objects.old.items }
{
    if !are_in_time(objects, moment) {
        objects.retain(|kept| is_in_time(moment, &kept.view.object));
    }
}

/// Drops the stale object, and those that were used before this place of the history.
fn keep_from(objects: &mut VecDeque<StoredObject>, stale: Option<u64>, bound: u128)
    ensures items { objects.new.items ≡ filter (stays_from stale bound) objects.old.items }
    ensures len { deque_len objects.new ≤ deque_len objects.old }
    ensures capacity { deque_capacity objects.new ≡ deque_capacity objects.old }
{
    objects.retain(|kept| stays_from(stale, bound, kept));
}

fn kept_among(objects: &[StoredObject], number: u64) -> Option<&StoredObject>
    ensures { option_copied result ≡ find (λ kept. kept.view.number == number) objects.now }
{
    objects.iter().find(|kept| kept.view.number == number)
}

/// The object of the number in one list, and else in the other.
fn kept_of<'a>(
    newer: &'a [StoredObject],
    older: &'a [StoredObject],
    number: u64,
) -> Option<&'a StoredObject>
    ensures { option_copied result ≡ find (λ kept. kept.view.number == number) (newer.now ++ older.now) }
{
    match kept_among(newer, number) {
        Some(kept) => Some(kept),
        None => kept_among(older, number),
    }
}

fn tested_or(kept: Option<&StoredObject>, count: u64) -> u64
    ensures { result ≡ option_map_or (λ one. one.tested) (option_copied kept.entry) count }
{
    match kept {
        Some(kept) => kept.tested,
        None => count,
    }
}

/// How many bans had been issued when the stale object was last tested, or without one how many were.
fn tested_for(count: u64, stale: Option<u64>, objects: &VecDeque<StoredObject>) -> u64
    ensures { result ≡ tested_for count stale objects.now.items }
{
    let Some(stale) = stale else {
        return count;
    };
    let (newer, older) = objects.as_slices();
    tested_or(kept_of(newer, older, stale), count)
}

/// Puts the object before the others, under the number of its fetch, in the stale one's place and used at this place of the
/// history, where so many bans were issued. The objects that were used before the bound go.
pub(crate) fn put_first(
    objects: &mut VecDeque<StoredObject>,
    used: u64,
    token: u64,
    object: &Shared<Object>,
    stale: Option<u64>,
    bound: u128,
    count: u64,
) -> Result<(), AllocError>
    ensures ok { OnOk result (objects.new.items ≡ first_of used token object.now stale count objects.old.items ∷ filter (stays_from stale bound) objects.old.items) }
    ensures err { OnErr result (objects.new.items ≡ objects.old.items) }
{
    objects.try_reserve(1)?;
    let kept = StoredObject {
        view: ObjectView {
            number: token,
            hits: 0,
            object: object.copy()?,
        },
        used,
        tested: tested_for(count, stale, objects),
    };
    keep_from(objects, stale, bound);
    objects.push_front_reserved(kept);
    Ok(())
}
