// Members with their keys, found by key.
ghost use Rattle.std.specs.Prelude.{◌≡◌, ◌∷◌, ◌↔◌, [], IsTrue, IfOk, OnOk, OnErr, nat_eq};
ghost use Rattle.std.specs.Map.{lookup};
ghost use Rattle.xkey_index.specs.Members.{AreInOrder, IsNewest, handles_with, without, without_all};

use crate::handles::{add_all, find_all, remove_all};
use indexmap::IndexMap;
use std::alloc::{AllocError, Global};
use std::collections::{BTreeMap, BTreeSet};
use std::marker::Model;
use units::{Sequence, Text};

/// Members with their keys. Clauses see their list, the newest first, each as its handle and its keys. The newer a
/// member, the lower its handle.
#[derive(Drop)]
pub struct XkeyIndex {
    // by handle
    keys: BTreeMap<u64, Sequence<Text>>,
    // by key
    handles: IndexMap<Text, BTreeSet<u64>>,
}

impl Model for XkeyIndex {
    ghost use Rattle.std.specs.Prelude.{List, ℕ};
    ghost use Rattle.std.specs.Ordering.{nat_cmp};
    ghost use Rattle.std.specs.BTreeMap.{IsOrdered};
    ghost use Rattle.xkey_index.specs.Handles.{IsIndexOf};

    ghost Value = { List (ℕ × List (List ℕ)) };

    ghost view = { λ index. index.keys.entries };

    ghost invariant = { λ index. IsOrdered nat_cmp index.keys × IsIndexOf index.keys index.handles };
}

impl XkeyIndex {
    /// No members. It takes no memory.
    pub fn new(alloc: Global) -> XkeyIndex
        ensures { result ≡ [] }
    {
        XkeyIndex {
            keys: BTreeMap::new(alloc),
            handles: IndexMap::new(alloc),
        }
    }

    /// Whether the handle is below those of all members. From each member to the next older one the handles rise.
    pub fn is_newest(&self, handle: u64) -> bool
        ensures newest { IsTrue result ↔ IsNewest handle self.now }
        ensures in_order { AreInOrder self.now }
    {
        match self.keys.first_key_value() {
            Some((newest, _)) => handle < *newest,
            None => true,
        }
    }

    /// Puts one more member first, whose handle is below those of all others. Where memory is wanting, the members are
    /// as before.
    pub fn put_first(
        &mut self,
        alloc: Global,
        handle: u64,
        keys: Sequence<Text>,
    ) -> Result<(), AllocError>
        requires { IsNewest handle self.old }
        ensures ok { OnOk result (self.new ≡ (handle, keys) ∷ self.old) }
        ensures err { OnErr result (self.new ≡ self.old) }
    {
        add_all(&mut self.handles, alloc, handle, keys.as_slice())?;
        match self.keys.insert(handle, keys) {
            Ok(_) => Ok(()),
            Err(refused) => {
                let (_, keys) = refused.value;
                remove_all(&mut self.handles, handle, keys.as_slice());
                Err(AllocError)
            }
        }
    }

    /// Takes the member of this handle out, and gives its keys. None where there is no such member. It takes no memory.
    pub fn take(&mut self, handle: u64) -> Option<Sequence<Text>>
        ensures found { result ≡ lookup (nat_eq handle) self.old }
        ensures rest { self.new ≡ without handle self.old }
    {
        let keys = self.keys.remove(&handle)?;
        remove_all(&mut self.handles, handle, keys.as_slice());
        Some(keys)
    }

    /// Takes the members of these handles out, as far as they are there. It takes no memory.
    pub fn drop_all(&mut self, handles: &[u64])
        ensures { self.new ≡ without_all handles.now self.old }
    {
        for handle in handles {
            self.take(*handle);
        }
    }

    /// The handles of the members that have at least one of the keys, the newest first.
    pub fn find(&self, alloc: Global, keys: &[Text]) -> Result<Vec<u64>, AllocError>
        ensures { IfOk result (λ found. found.items ≡ handles_with keys.now self.now) }
    {
        let found = find_all(&self.handles, alloc, keys)?;
        listed(alloc, &found)
    }
}

fn listed(alloc: Global, handles: &BTreeSet<u64>) -> Result<Vec<u64>, AllocError>
    ensures { IfOk result (λ list. list.items ≡ handles.now.keys) }
{
    handles.iter().copied().collect(alloc)
}
