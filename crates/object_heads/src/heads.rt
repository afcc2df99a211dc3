// Objects with their handles, found by key and by number.
ghost use Rattle.std.specs.Prelude.{◌≡◌, ◌∷◌, ◌↔◌, [], None, IsTrue, IfOk, IfSome, OnOk, OnErr, nat_eq};
ghost use Rattle.std.specs.Option.{option_copied};
ghost use Rattle.std.specs.Ordering.{nat_cmp};
ghost use Rattle.std.specs.BTreeSet.{IsOrdered};
ghost use Rattle.std.specs.Map.{lookup};
ghost use Rattle.cache_law.specs.Object.{key_of};
ghost use Rattle.object_heads.specs.Members.{AreInOrder, IsNewest, changed, first_from, handle_at, handles_where, has_key, with_hit, with_object, with_payload, without, without_all};

use crate::item::Item;
use crate::name::Name;
use crate::places::Places;
use cache_law::Object;
use std::alloc::{AllocError, Global};
use std::collections::{BTreeMap, BTreeSet};
use std::marker::Model;
use units::{Shared, Text};

#[derive(Drop)]
struct Kept<P> {
    // of the object's key
    name: Name,
    item: Item<P>,
}

/// Objects of a cache with their handles and payloads. Clauses see the list of the members, the newest first, each as
/// its handle and its item. The newer a member, the lower its handle. No two objects have one number.
#[derive(Drop)]
pub struct Heads<P> {
    // by handle
    items: BTreeMap<u64, Kept<P>>,
    places: Places,
}

impl<P> Model for Heads<P> {
    ghost use Rattle.std.specs.Prelude.{List, ℕ};
    ghost use Rattle.object_heads.specs.declared.item.Item.{Item as Held};
    ghost use Rattle.object_heads.specs.Kept.{members_of, Stands};

    ghost Value = { List (ℕ × Held P) };

    ghost view = { λ heads. members_of heads.items };

    ghost invariant = { λ heads. Stands heads.items heads.places };
}

impl<P: Drop> Heads<P> {
    /// No members. It takes no memory.
    pub fn new(alloc: Global) -> Heads<P>
        ensures { result ≡ [] }
    {
        Heads {
            items: BTreeMap::new(alloc),
            places: Places {
                heads: BTreeMap::new(alloc),
                numbers: BTreeMap::new(alloc),
            },
        }
    }

    /// Whether the handle is below those of all members. From each member to the next older one the handles rise.
    pub fn is_newest(&self, handle: u64) -> bool
        ensures newest { IsTrue result ↔ IsNewest handle self.now }
        ensures in_order { AreInOrder self.now }
    {
        match self.items.first_key_value() {
            Some((newest, _)) => handle < *newest,
            None => true,
        }
    }

    /// Puts one more member first, whose handle is below those of all others, and whose object has a number of its own.
    /// Where memory is wanting, the members are as before.
    pub fn put_first(&mut self, alloc: Global, handle: u64, item: Item<P>) -> Result<(), AllocError>
        requires newest { IsNewest handle self.old }
        requires own { handle_at item.view.number self.old ≡ None }
        ensures ok { OnOk result (self.new ≡ (handle, item) ∷ self.old) }
        ensures err { OnErr result (self.new ≡ self.old) }
    {
        let name = Name::of(alloc, item.view.object.key())?;
        self.places.enter(alloc, handle, &name, item.view.number)?;
        match self.items.insert(handle, Kept { name, item }) {
            Ok(_) => Ok(()),
            Err(refused) => {
                let (_, kept) = refused.value;
                let number = kept.item.view.number;
                self.places.leave(handle, &kept.name, number);
                Err(AllocError)
            }
        }
    }

    /// Takes the member of this handle out, and gives its item. None where there is no such member. It takes no memory.
    pub fn take(&mut self, handle: u64) -> Option<Item<P>>
        ensures found { result ≡ lookup (nat_eq handle) self.old }
        ensures rest { self.new ≡ without handle self.old }
    {
        let Kept { name, item } = self.items.remove(&handle)?;
        self.places.leave(handle, &name, item.view.number);
        Some(item)
    }

    /// Takes the members of these handles out, as far as they are there. It takes no memory.
    pub fn drop_all(&mut self, handles: &[u64])
        ensures { self.new ≡ without_all handles.now self.old }
    {
        for handle in handles {
            self.take(*handle);
        }
    }

    /// The item of this handle.
    pub fn get(&self, handle: u64) -> Option<&Item<P>>
        ensures { option_copied result ≡ lookup (nat_eq handle) self.now }
    {
        match self.items.get(&handle) {
            Some(kept) => Some(&kept.item),
            None => None,
        }
    }

    /// The handles of the members whose objects have the key, the newest first.
    pub fn find(&self, alloc: Global, key: &[Text]) -> Result<Vec<u64>, AllocError>
        ensures { IfOk result (λ found. found.items ≡ handles_where (has_key key.now) self.now) }
    {
        let name = Name::of(alloc, key)?;
        match self.places.heads.get(&name) {
            Some(handles) => listed(alloc, handles),
            None => Ok(Vec::new(alloc)),
        }
    }

    /// The handle of the member whose object has the number.
    pub fn handle_of(&self, number: u64) -> Option<u64>
        ensures { result ≡ handle_at number self.now }
    {
        self.places.numbers.get(&number).copied()
    }

    /// The newest handle that isn't below this one. A pass over all members asks for it from 0 on, and then from behind
    /// each answer; members may come and go in between.
    pub fn first_from(&self, handle: u64) -> Option<u64>
        ensures { result ≡ first_from handle self.now }
    {
        match self.items.range(handle..).next() {
            Some((first, _)) => Some(*first),
            None => None,
        }
    }

    /// Gives the item of this handle another payload, where there is one. It takes no memory.
    pub fn set_payload(&mut self, handle: u64, payload: P)
        ensures { self.new ≡ changed handle (with_payload payload) self.old }
    {
        if let Some(kept) = self.items.get_mut(&handle) {
            kept.item.payload = payload;
        }
    }

    /// Puts another object of the same key in the place of this handle's, where there is one. It takes no memory.
    pub fn set_object(&mut self, handle: u64, object: Shared<Object>)
        requires { IfSome (lookup (nat_eq handle) self.old) (λ item. key_of object ≡ key_of item.view.object) }
        ensures { self.new ≡ changed handle (with_object object) self.old }
    {
        if let Some(kept) = self.items.get_mut(&handle) {
            kept.item.view.object = object;
        }
    }

    /// Counts a hit of this handle's object, where there is one. It takes no memory.
    pub fn count_hit(&mut self, handle: u64)
        ensures { self.new ≡ changed handle with_hit self.old }
    {
        if let Some(kept) = self.items.get_mut(&handle) {
            kept.item.view.hits = kept.item.view.hits.saturating_add(1);
        }
    }
}

fn listed(alloc: Global, handles: &BTreeSet<u64>) -> Result<Vec<u64>, AllocError>
    ensures items { IfOk result (λ list. list.items ≡ handles.now.keys) }
    ensures ordered { IsOrdered nat_cmp handles.now }
{
    handles.iter().copied().collect(alloc)
}
