// One more object.
ghost use Rattle.std.specs.Prelude.{◌≡◌, ◌≤◌, ◌<◌, ◌+◌, ◌^◌, false, IfOk, OnErr, OnOk};
ghost use Rattle.std.specs.List.{list_any};
ghost use Rattle.cache_law.specs.Object.{size_of};
ghost use Rattle.cache_law.specs.Purges.{xkeys_of};
ghost use Rattle.lazy_law.specs.Insertion.{has_number, new_placed, sizes_late};
ghost use Rattle.lazy_store.specs.Displaced.{with_first};
ghost use Rattle.lazy_store.specs.Uses.{AreUsedBefore};

use crate::Store;
use crate::placement::Placement;
use ban_list::Stand;
use cache_law::{Object, ObjectView, object_size};
use object_heads::Item;
use std::alloc::{AllocError, Global};
use units::{Copied, Sequence, Shared, Text, out_of_memory};

/// The object's xkeys. A marker has none.
fn xkeys_of(object: &Object, alloc: Global) -> Result<Sequence<Text>, AllocError>
    ensures { IfOk result (λ keys. keys ≡ xkeys_of object.now) }
{
    match object {
        Object::Ordinary(response) => response.content.xkeys.copied(alloc),
        Object::HitForMiss(_) => Ok(Sequence::new(alloc)),
        Object::HitForPass(_) => Ok(Sequence::new(alloc)),
    }
}

/// What the object takes of the room, in bytes.
fn size_of(object: &Object) -> u64
    requires { size_of object.now < 2 ^ 64 }
    ensures { result ≡ size_of object.now }
{
    object_size(object) as u64
}

fn item_of(
    object: &Shared<Object>,
    number: u64,
    placement: Placement,
) -> Result<Item<Placement>, AllocError>
    ensures { IfOk result (λ item. item ≡ record { view = record { number = number; hits = 0; object = object.now }; payload = placement }) }
{
    let view = ObjectView {
        number,
        hits: 0,
        object: object.copy()?,
    };
    Ok(Item {
        view,
        payload: placement,
    })
}

impl Store {
    /// Puts one more object first, under a number of its own. It was used at this place of the history, which is later than all
    /// uses so far. Of the bans on requests it has still to be tested on those that are newer than the place, and on no others.
    /// Where memory is wanting all is as before.
    pub fn put(
        &mut self,
        alloc: Global,
        object: &Shared<Object>,
        number: u64,
        used: u64,
        place: u64,
    ) -> Result<(), AllocError>
        requires later { AreUsedBefore used self.old.objects }
        requires own { list_any (has_number number) self.old.objects ≡ false }
        requires place { place ≤ self.old.issued }
        requires fits { sizes_late self.old.objects + size_of object.now < 2 ^ 64 }
        ensures ok { OnOk result (self.new ≡ with_first (new_placed used number object.now place self.old.issued) self.old) }
        ensures err { OnErr result (self.new ≡ self.old) }
    {
        let size = size_of(object);
        let keys = xkeys_of(object, alloc)?;
        let mark = self.issued();
        let placement = Placement {
            used,
            stand: Stand { place, mark },
        };
        match item_of(object, number, placement) {
            Ok(item) => self.put_item(alloc, item, keys, size),
            Err(_) => Err(out_of_memory(keys)),
        }
    }
}
