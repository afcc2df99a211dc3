// Handles under the names of keys.
ghost use Rattle.std.specs.Prelude.{◌≡◌, ℕ, true, false, OnOk, OnErr};
ghost use Rattle.object_heads.specs.Indexes.{Adds, Removes, IsSame, is_under, same_name};

use crate::name::Name;
use std::alloc::{AllocError, Global};
use std::collections::{BTreeMap, BTreeSet};

/// Puts a handle under a name. Where memory is wanting, all stand as before.
pub(crate) fn add(
    heads: &mut BTreeMap<Name, BTreeSet<u64>>,
    alloc: Global,
    handle: u64,
    name: &Name,
) -> Result<(), AllocError>
    ensures ok { OnOk result (Adds (is_under heads.old) handle (same_name name.now) (is_under heads.new)) }
    ensures err { OnErr result (IsSame (is_under heads.old) (is_under heads.new)) }
{
    match heads.get_mut(name) {
        Some(under) => {
            under.insert(handle)?;
            Ok(())
        }
        None => add_first(heads, alloc, handle, name),
    }
}

// Puts a handle under a name that has none.
fn add_first(
    heads: &mut BTreeMap<Name, BTreeSet<u64>>,
    alloc: Global,
    handle: u64,
    name: &Name,
) -> Result<(), AllocError>
    requires { (other : ℕ) → is_under heads.old name.now other ≡ false }
    ensures ok { OnOk result (Adds (is_under heads.old) handle (same_name name.now) (is_under heads.new)) }
    ensures err { OnErr result (IsSame (is_under heads.old) (is_under heads.new)) }
{
    let mut under = BTreeSet::new(alloc);
    under.insert(handle)?;
    heads.insert(name.copy()?, under)?;
    Ok(())
}

/// Takes a handle from under a name, and the name with its last handle. It takes no memory.
pub(crate) fn remove(heads: &mut BTreeMap<Name, BTreeSet<u64>>, handle: u64, name: &Name)
    ensures { Removes (is_under heads.old) handle (same_name name.now) (is_under heads.new) }
{
    if remove_from(heads, handle, name) {
        heads.remove(name);
    }
}

// Takes a handle from under a name. Says whether the name has no handles then.
fn remove_from(heads: &mut BTreeMap<Name, BTreeSet<u64>>, handle: u64, name: &Name) -> bool
    ensures removed { Removes (is_under heads.old) handle (same_name name.now) (is_under heads.new) }
    ensures empty { result ≡ true → (other : ℕ) → is_under heads.new name.now other ≡ false }
{
    match heads.get_mut(name) {
        Some(under) => {
            under.remove(&handle);
            under.is_empty()
        }
        None => false,
    }
}
