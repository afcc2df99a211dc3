// Where the handles stand.
ghost use Rattle.std.specs.Prelude.{◌≡◌, ℕ, true, false, nat_eq, OnOk, OnErr};
ghost use Rattle.object_heads.specs.declared.name.Name.{Name as Named};
ghost use Rattle.object_heads.specs.Indexes.{Adds, Removes, IsSame, is_at_number, is_under, same_name};

use crate::name::Name;
use crate::{by_name, by_number};
use std::alloc::{AllocError, Global};
use std::collections::{BTreeMap, BTreeSet};

/// Handles by the names of keys and by the numbers of objects.
#[derive(Drop)]
pub(crate) struct Places {
    /// A name has several handles, of the objects of one key, and goes with its last one.
    pub heads: BTreeMap<Name, BTreeSet<u64>>,
    /// A number has one handle.
    pub numbers: BTreeMap<u64, u64>,
}

impl Places {
    /// Puts a handle that stands nowhere under a name and at a number, which has none. Where memory is wanting, all stand
    /// as before.
    pub fn enter(
        &mut self,
        alloc: Global,
        handle: u64,
        name: &Name,
        number: u64,
    ) -> Result<(), AllocError>
        requires nowhere { (other : Named) → is_under self.old.heads other handle ≡ false }
        requires free { (other : ℕ) → is_at_number self.old.numbers number other ≡ false }
        ensures heads { OnOk result (Adds (is_under self.old.heads) handle (same_name name.now) (is_under self.new.heads)) }
        ensures numbers { OnOk result (Adds (is_at_number self.old.numbers) handle (nat_eq number) (is_at_number self.new.numbers)) }
        ensures same_heads { OnErr result (IsSame (is_under self.old.heads) (is_under self.new.heads)) }
        ensures same_numbers { OnErr result (IsSame (is_at_number self.old.numbers) (is_at_number self.new.numbers)) }
    {
        by_name::add(&mut self.heads, alloc, handle, name)?;
        if by_number::put(&mut self.numbers, handle, number).is_err() {
            by_name::remove(&mut self.heads, handle, name);
            return Err(AllocError);
        }
        Ok(())
    }

    /// Takes a handle away that stands under the name and at the number. It takes no memory.
    pub fn leave(&mut self, handle: u64, name: &Name, number: u64)
        requires { is_at_number self.old.numbers number handle ≡ true }
        ensures heads { Removes (is_under self.old.heads) handle (same_name name.now) (is_under self.new.heads) }
        ensures numbers { Removes (is_at_number self.old.numbers) handle (nat_eq number) (is_at_number self.new.numbers) }
    {
        by_name::remove(&mut self.heads, handle, name);
        by_number::take(&mut self.numbers, handle, number);
    }
}
