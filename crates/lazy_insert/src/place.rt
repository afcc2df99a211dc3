// The place of a new object among the bans.
ghost use Rattle.std.specs.Prelude.{◌≡◌, ◌≤◌, IfOk};
ghost use Rattle.lazy_law.specs.Insertion.{place_for};
ghost use Rattle.lazy_law.specs.Placed.{kept_bans};
ghost use Rattle.lazy_store.specs.Members.{number_in};
ghost use Rattle.lazy_store.specs.Tied.{AreApart};
ghost use Rattle.lazy_insert.specs.Putting.{place_at};

use lazy_store::Store;
use std::alloc::{AllocError, Global};

/// The place of the object of the number, or how many bans were issued where there is none. No two objects have one number.
fn place_at(store: &Store, number: u64) -> u64
    ensures value { result ≡ place_at number store.now }
    ensures within { result ≤ store.now.issued }
    ensures apart { AreApart number_in store.now.objects }
{
    let issued = store.issued();
    match store.item(number) {
        Some(item) => item.payload.stand.place,
        None => issued,
    }
}

/// The place of a new object that replaces the stale one, where that is there, in time and not dead. Any other has to be tested
/// on no ban that was issued so far. An error means that memory was wanting.
pub(crate) fn place_for(
    store: &Store,
    alloc: Global,
    moment: u64,
    stale: Option<u64>,
) -> Result<u64, AllocError>
    ensures value { IfOk result (λ place. place ≡ place_for moment (kept_bans store.now) store.now.issued stale store.now.objects) }
    ensures within { IfOk result (λ place. place ≤ store.now.issued) }
{
    let gone = store.is_gone(alloc, moment, stale)?;
    if gone {
        return Ok(store.issued());
    }
    match stale {
        Some(number) => Ok(place_at(store, number)),
        None => Ok(store.issued()),
    }
}
