// How room is made for one more object: those go that were used before a place of the history.
ghost use Rattle.std.specs.Prelude.{◌≡◌, ◌+◌, ◌-◌, ◌^◌, ◌<◌, ◌≤◌, ◌↔◌, min, filter, length, IsTrue, IfSome, IfNone};
ghost use Rattle.cache_law.specs.Object.{size_of};
ghost use Rattle.cache_law.specs.Room.{most_displaced};
ghost use Rattle.flat_core.specs.Room.{HasNone, MakesRoom, goes_before, least_used, least_with, size_staying, sizes_staying, stays_from};

use crate::lists::stays;
use crate::stored_object::StoredObject;
use cache_desk::least_of;
use cache_law::{Object, object_size};
use std::collections::VecDeque;

/// The most objects that one insertion displaces.
const MOST_DISPLACED: usize = 50;

/// Whether the object stays where those go that were used before the bound, and one takes the place of the stale one.
pub(crate) fn stays_from(stale: Option<u64>, bound: u128, kept: &StoredObject) -> bool
    ensures { result ≡ stays_from stale bound kept.now }
{
    stays(stale, kept) && bound <= u128::from(kept.used)
}

/// Whether it goes then, and isn't the stale one.
fn goes_before(stale: Option<u64>, bound: u128, kept: &StoredObject) -> bool
    ensures { result ≡ goes_before stale bound kept.now }
{
    stays(stale, kept) && u128::from(kept.used) < bound
}

fn size_staying(stale: Option<u64>, bound: u128, kept: &StoredObject) -> u128
    ensures { result ≡ min (size_staying stale bound kept.now) (2 ^ 128 - 1) }
{
    if stays_from(stale, bound, kept) {
        object_size(&kept.view.object)
    } else {
        0
    }
}

/// What the objects that stay take of the room beside what is counted already, or the greatest number of 128 bits where
/// that is less.
fn sizes_from(start: u128, stale: Option<u64>, bound: u128, objects: &[StoredObject]) -> u128
    ensures { result ≡ min (start + sizes_staying stale bound objects.now) (2 ^ 128 - 1) }
{
    let mut total = start;
    for kept in objects {
        total = total.saturating_add(size_staying(stale, bound, kept));
    }
    total
}

/// What the objects that stay take of the room, or the greatest number of 128 bits where that is less.
fn sizes_staying(objects: &VecDeque<StoredObject>, stale: Option<u64>, bound: u128) -> u128
    ensures { result ≡ min (sizes_staying stale bound objects.now.items) (2 ^ 128 - 1) }
{
    let (newer, older) = objects.as_slices();
    sizes_from(sizes_from(0, stale, bound, newer), stale, bound, older)
}

/// Whether there is room for the size beside the objects that stay.
fn has_room(
    objects: &VecDeque<StoredObject>,
    stale: Option<u64>,
    bound: u128,
    size: u128,
    room: u64,
) -> bool
    ensures { IsTrue result ↔ (sizes_staying stale bound objects.now.items + size ≤ room) }
{
    sizes_staying(objects, stale, bound).saturating_add(size) <= u128::from(room)
}

fn least_with(
    stale: Option<u64>,
    bound: u128,
    known: Option<u64>,
    kept: &StoredObject,
) -> Option<u64>
    ensures { result ≡ least_with stale bound known kept.now }
{
    if stays_from(stale, bound, kept) {
        Some(least_of(kept.used, known))
    } else {
        known
    }
}

/// The least place at which one of the objects that stay was used.
fn least_used(objects: &VecDeque<StoredObject>, stale: Option<u64>, bound: u128) -> Option<u64>
    ensures { result ≡ least_used stale bound objects.now.items }
{
    objects
        .iter()
        .fold(None, |known, kept| least_with(stale, bound, known, kept))
}

/// How many objects go.
fn count_before(objects: &VecDeque<StoredObject>, stale: Option<u64>, bound: u128) -> usize
    ensures { result ≡ length (filter (goes_before stale bound) objects.now.items) }
{
    objects
        .iter()
        .filter(|kept| goes_before(stale, bound, kept))
        .count()
}

/// The bound, where it displaces no more objects than one insertion may.
fn within_most(objects: &VecDeque<StoredObject>, stale: Option<u64>, bound: u128) -> Option<u128>
    ensures few { IfSome result (λ own. (own ≡ bound) × (length (filter (goes_before stale bound) objects.now.items) ≤ most_displaced)) }
    ensures many { IfNone result (most_displaced < length (filter (goes_before stale bound) objects.now.items)) }
{
    if count_before(objects, stale, bound) <= MOST_DISPLACED {
        Some(bound)
    } else {
        None
    }
}

/// The place of the history before which objects have to have been used to go, so that the new one finds room in the stale
/// one's place. Without one, no room is made.
pub(crate) fn bound_of(
    objects: &VecDeque<StoredObject>,
    stale: Option<u64>,
    object: &Object,
    room: u64,
) -> Option<u128>
    ensures made { IfSome result (λ bound. MakesRoom room (size_of object.now) stale objects.now.items bound) }
    ensures full { IfNone result (HasNone room (size_of object.now) stale objects.now.items) }
{
    let size = object_size(object);
    let mut bound = 0;
    for _ in 0..MOST_DISPLACED + 1 {
        if has_room(objects, stale, bound, size, room) {
            return within_most(objects, stale, bound);
        }
        let Some(least) = least_used(objects, stale, bound) else {
            return None;
        };
        bound = u128::from(least) + 1;
    }
    None
}
