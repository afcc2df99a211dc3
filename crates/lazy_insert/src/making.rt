// How room is made.
ghost use Rattle.std.specs.Prelude.{◌≡◌, ◌<◌, ◌^◌, true, IfOk, MatchOption};
ghost use Rattle.lazy_law.specs.Insertion.{fits_late, others_late, sizes_late};
ghost use Rattle.lazy_insert.specs.Inserted.{IsRoomy, IsTidied, is_full};

use cache_law::object_size;
use lazy_store::Store;
use std::alloc::{AllocError, Global};

/// What all objects but the stale one take of the room together.
fn taken_beside(store: &Store, stale: Option<u64>) -> u128
    ensures sum { result ≡ sizes_late (others_late stale store.now.objects) }
    ensures low { result < 2 ^ 64 }
{
    let total = u128::from(store.total());
    match stale {
        Some(number) => match store.item(number) {
            Some(item) => total - object_size(&item.view.object),
            None => total,
        },
        None => total,
    }
}

/// Whether one of the size finds room beside all objects but the stale one.
fn fits(store: &Store, room: u64, size: u64, stale: Option<u64>) -> bool
    ensures { result ≡ fits_late room size (others_late stale store.now.objects) }
{
    taken_beside(store, stale) + u128::from(size) <= u128::from(room)
}

/// The numbers of the objects that have to go so that one of the size finds room in the stale one's place; none where no room is
/// made. Where it doesn't fit beside all that is stored, what isn't in time goes first, and what waits for the lurker is tested,
/// since dead objects don't count. An error means that memory was wanting.
pub(crate) fn make_room(
    store: &mut Store,
    alloc: Global,
    room: u64,
    moment: u64,
    size: u64,
    stale: Option<u64>,
) -> Result<Option<Vec<u64>>, AllocError>
    ensures made { IfOk result (λ out. MatchOption out
        (is_full room size moment stale store.old ≡ true)
        (λ numbers. IsRoomy room size moment stale store.old store.new numbers.items)) }
    ensures tidied { IsTidied moment store.old store.new }
{
    if fits(store, room, size, stale) {
        return Ok(Some(Vec::new(alloc)));
    }
    store.drop_ended(moment);
    store.sweep_all(alloc)?;
    store.least_out(alloc, stale, room, size)
}
