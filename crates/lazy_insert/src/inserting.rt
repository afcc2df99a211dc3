// The call.
ghost use Rattle.std.specs.Prelude.{◌≡◌, ◌<◌, true, false, IfNone, IfOk, IfSome, OnErr};
ghost use Rattle.std.specs.List.{list_any};
ghost use Rattle.cache_law.specs.Object.{size_of};
ghost use Rattle.lazy_law.specs.Insertion.{has_number};
ghost use Rattle.lazy_insert.specs.Inserted.{IsPlaced, IsTidied, is_full, stored_in};
ghost use Rattle.lazy_store.specs.Uses.{AreUsedBefore};

use crate::making::make_room;
use crate::place::place_for;
use crate::putting::put_over;
use cache_frame::Placing;
use cache_law::{Object, is_in_time, object_size};
use lazy_store::Store;
use std::alloc::{AllocError, Global};
use units::Shared;

/// Stores the object under the number of its fetch, in the stale one's place, where it is in time and has room. It is used at
/// this place of the history, which is later than all uses so far; and no object of the number is stored.
pub fn insert(
    store: &mut Store,
    alloc: Global,
    room: u64,
    used: u64,
    moment: u64,
    token: u64,
    object: &Shared<Object>,
    stale: Option<u64>,
) -> Placing
    requires later { AreUsedBefore used store.old.objects }
    requires own { list_any (has_number token) store.old.objects ≡ false }
    ensures { IsPlaced room used moment token object.now stale store.old store.new result }
{
    if !is_in_time(moment, object) {
        return Placing::NotInTime;
    }
    let Some(size) = size_within(object, room) else {
        return Placing::NoRoom;
    };
    match store_in(store, alloc, room, used, moment, token, object, size, stale) {
        Ok(true) => Placing::Stored,
        Ok(false) => Placing::NoRoom,
        Err(_) => Placing::Refused,
    }
}

/// What the object takes of the room; none where that is more than there is.
fn size_within(object: &Object, room: u64) -> Option<u64>
    ensures some { IfSome result (λ size. size ≡ size_of object.now) }
    ensures none { IfNone result (room < size_of object.now) }
{
    let size = object_size(object);
    if size <= u128::from(room) {
        Some(size as u64)
    } else {
        None
    }
}

/// Stores the object, which is in time, and says whether it had room. Where memory is wanting it isn't there.
fn store_in(
    store: &mut Store,
    alloc: Global,
    room: u64,
    used: u64,
    moment: u64,
    token: u64,
    object: &Shared<Object>,
    size: u64,
    stale: Option<u64>,
) -> Result<bool, AllocError>
    requires size { size ≡ size_of object.now }
    requires later { AreUsedBefore used store.old.objects }
    requires own { list_any (has_number token) store.old.objects ≡ false }
    ensures stored { IfOk result (λ stored. stored ≡ true → (is_full room size moment stale store.old ≡ false) × (store.new ≡ stored_in room used moment token object.now stale store.old)) }
    ensures full { IfOk result (λ stored. stored ≡ false → (is_full room size moment stale store.old ≡ true) × IsTidied moment store.old store.new) }
    ensures err { OnErr result (IsTidied moment store.old store.new) }
{
    let place = place_for(store, alloc, moment, stale)?;
    match make_room(store, alloc, room, moment, size, stale)? {
        Some(out) => {
            put_over(store, alloc, object, size, token, used, place, stale, &out)?;
            Ok(true)
        }
        None => Ok(false),
    }
}
