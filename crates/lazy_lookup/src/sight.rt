// What a lookup sees in an object.
ghost use Rattle.std.specs.Prelude.{◌≡◌, IfOk};
ghost use Rattle.lazy_store.specs.Members.{placed_in};
ghost use Rattle.lazy_lookup.specs.Sights.{fit_sight as fits_so, is_end, sight_of as seen_in};

use cache_law::{Object, Query, is_chosen_by, is_fresh_for, is_in_time};
use lazy_store::{Placement, Store};
use object_heads::Item;
use std::alloc::{AllocError, Global};

#[derive(Clone, Copy, Debug)]
pub(crate) enum Sight {
    /// It isn't in time.
    Past,
    /// A ban that it wasn't tested on matches it.
    Struck,
    /// It doesn't answer the request.
    Unfit,
    /// It isn't fresh.
    Aged,
    Fresh,
}

fn fit_sight(moment: u64, query: &Query, object: &Object) -> Sight
    ensures { result ≡ fits_so moment query.now object.now }
{
    if !is_chosen_by(query, object) {
        return Sight::Unfit;
    }
    if is_fresh_for(moment, &query.options, object) {
        Sight::Fresh
    } else {
        Sight::Aged
    }
}

/// What the lookup sees in an object of its key.
pub(crate) fn sight_of(
    store: &Store,
    alloc: Global,
    moment: u64,
    query: &Query,
    item: &Item<Placement>,
) -> Result<Sight, AllocError>
    ensures { IfOk result (λ sight. sight ≡ seen_in moment query.now store.now (placed_in item.now)) }
{
    if !is_in_time(moment, &item.view.object) {
        return Ok(Sight::Past);
    }
    if store.is_struck(alloc, query, item)? {
        return Ok(Sight::Struck);
    }
    Ok(fit_sight(moment, query, &item.view.object))
}

/// Whether a scan ends at an object in which the lookup sees this.
pub(crate) fn is_end(sight: Sight) -> bool
    ensures { result ≡ is_end sight }
{
    match sight {
        Sight::Fresh => true,
        Sight::Past | Sight::Struck | Sight::Unfit | Sight::Aged => false,
    }
}
