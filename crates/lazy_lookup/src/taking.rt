// What a lookup leaves.
ghost use Rattle.std.specs.Prelude.{◌≡◌, ℕ, OnErr, OnOk};
ghost use Rattle.cache_law.specs.declared.call.Query.{Query as Wanted};
ghost use Rattle.lazy_law.specs.Beside.{looked_late};
ghost use Rattle.lazy_store.specs.Uses.{AreUsedBefore};
ghost use Rattle.lazy_lookup.specs.Marks.{AreMarksOf, hit_in, marked_by, marker_in, taken, used_in};

use crate::marks::Marks;
use cache_frame::Use;
use lazy_store::Store;
use std::alloc::AllocError;

/// Does what the marks say, and uses an object at this place of the history. Where the marks are of a lookup, it leaves what
/// the lookup's scan and the use leave. Where memory is wanting all is as before.
pub fn take(store: &mut Store, used: u64, marks: &Marks, used_as: Use) -> Result<(), AllocError>
    requires { AreUsedBefore used store.old.objects }
    ensures taken { OnOk result (store.new ≡ taken used used_as marks.now store.old) }
    ensures looked { OnOk result ((moment : ℕ) (query : Wanted) → AreMarksOf moment query store.old marks.now
        → store.new ≡ looked_late moment query used (hit_in used_as) (marker_in used_as) store.old) }
    ensures err { OnErr result (store.new ≡ store.old) }
{
    use_one(store, used, used_as)?;
    apply(store, marks);
    Ok(())
}

fn use_one(store: &mut Store, used: u64, used_as: Use) -> Result<(), AllocError>
    requires { AreUsedBefore used store.old.objects }
    ensures ok { OnOk result (store.new ≡ record store.old { objects = used_in used used_as store.old.objects }) }
    ensures err { OnErr result (store.new ≡ store.old) }
{
    match used_as {
        Use::Nothing => Ok(()),
        Use::Marker(number) => store.use_at(number, used),
        Use::Hit(number) => {
            store.use_at(number, used)?;
            store.count_hit(number);
            Ok(())
        }
    }
}

/// Does what the marks say. It takes no memory.
fn apply(store: &mut Store, marks: &Marks)
    ensures { store.new ≡ record store.old { objects = marked_by marks.now store.old.issued store.old.objects } }
{
    store.drop_all(marks.gone.as_slice());
    store.test_all(marks.tested.as_slice());
}
