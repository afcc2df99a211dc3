// A new object in the place of others.
ghost use Rattle.std.specs.Prelude.{◌≡◌, ◌≤◌, ◌∷◌, false, nat_eq, not, filter, OnErr, OnOk};
ghost use Rattle.std.specs.List.{list_any};
ghost use Rattle.cache_law.specs.Object.{size_of};
ghost use Rattle.lazy_law.specs.Insertion.{has_number, new_placed, others_late};
ghost use Rattle.lazy_insert.specs.Putting.{replaced};
ghost use Rattle.lazy_store.specs.Numbered.{is_one_of};
ghost use Rattle.lazy_store.specs.Uses.{AreUsedBefore};

use cache_law::Object;
use lazy_store::Store;
use std::alloc::{AllocError, Global};
use units::Shared;

/// Puts the object first, under the number and used at this place of the history. Those of these other numbers go, and so does
/// the stale one. Where memory is wanting all is as before; sizes that 64 bits can't sum up count as that, since no memory holds
/// so much.
pub(crate) fn put_over(
    store: &mut Store,
    alloc: Global,
    object: &Shared<Object>,
    size: u64,
    number: u64,
    used: u64,
    place: u64,
    stale: Option<u64>,
    out: &[u64],
) -> Result<(), AllocError>
    requires size { size ≡ size_of object.now }
    requires later { AreUsedBefore used store.old.objects }
    requires own { list_any (has_number number) store.old.objects ≡ false }
    requires other { list_any (nat_eq number) out.now ≡ false }
    requires place { place ≤ store.old.issued }
    ensures ok { OnOk result (store.new ≡ record store.old {
      objects = new_placed used number object.now place store.old.issued
          ∷ filter (λ placed. not (is_one_of out.now placed)) (others_late stale store.old.objects);
    }) }
    ensures err { OnErr result (store.new ≡ store.old) }
{
    if store.total().checked_add(size).is_none() {
        return Err(AllocError);
    }
    store.put(alloc, object, number, used, place)?;
    store.drop_all(out);
    replace(store, stale, number);
    Ok(())
}

/// Takes out the stale object. Where it has the new one's number it isn't there. It takes no memory.
fn replace(store: &mut Store, stale: Option<u64>, number: u64)
    ensures { store.new ≡ replaced stale number store.old }
{
    match stale {
        Some(stale) if stale != number => store.remove(stale),
        _ => (),
    }
}
