// Handles by key.
ghost use Rattle.std.specs.Prelude.{◌≡◌, ◌||◌, ℕ, List, true, false, IfOk, OnOk, OnErr};
ghost use Rattle.std.specs.Ordering.{nat_cmp};
ghost use Rattle.std.specs.BTreeSet.{contains, IsOrdered};
ghost use Rattle.std.specs.Str.{bytes_eq};
ghost use Rattle.xkey_index.specs.Handles.{Adds, Removes, IsSame, has_key, is_under, is_under_one};

use indexmap::IndexMap;
use std::alloc::{AllocError, Global};
use std::collections::BTreeSet;
use units::Text;

/// Puts a handle under a key.
fn add(
    handles: &mut IndexMap<Text, BTreeSet<u64>>,
    alloc: Global,
    handle: u64,
    key: &Text,
) -> Result<(), AllocError>
    ensures ok { OnOk result (Adds handles.old handle (bytes_eq key.now) handles.new) }
    ensures err { OnErr result (IsSame handles.old handles.new) }
{
    if let Some(under) = handles.get_mut(key) {
        under.insert(handle)?;
        return Ok(());
    }
    let mut under = BTreeSet::new(alloc);
    under.insert(handle)?;
    handles.insert(key.copy()?, under)?;
    Ok(())
}

/// Takes a handle from under a key, and the key with its last handle.
fn remove(handles: &mut IndexMap<Text, BTreeSet<u64>>, handle: u64, key: &Text)
    ensures { Removes handles.old handle (bytes_eq key.now) handles.new }
{
    if remove_from(handles, handle, key) {
        handles.swap_remove(key);
    }
}

// Takes a handle from under a key. Says whether the key has no handles then.
fn remove_from(handles: &mut IndexMap<Text, BTreeSet<u64>>, handle: u64, key: &Text) -> bool
    ensures removed { Removes handles.old handle (bytes_eq key.now) handles.new }
    ensures empty { result ≡ true → (other : ℕ) → is_under handles.new key.now other ≡ false }
{
    match handles.get_mut(key) {
        Some(under) => {
            under.remove(&handle);
            under.is_empty()
        }
        None => false,
    }
}

/// Puts a handle under each of the keys, under which it doesn't stand. Where memory is wanting, all stand as before.
pub(crate) fn add_all(
    handles: &mut IndexMap<Text, BTreeSet<u64>>,
    alloc: Global,
    handle: u64,
    keys: &[Text],
) -> Result<(), AllocError>
    requires { (key : List ℕ) → is_under handles.old key handle ≡ false }
    ensures ok { OnOk result (Adds handles.old handle (has_key keys.now) handles.new) }
    ensures err { OnErr result (IsSame handles.old handles.new) }
{
    for (place, key) in keys.iter().enumerate() {
        if add(handles, alloc, handle, key).is_err() {
            remove_all(handles, handle, &keys[..place]);
            return Err(AllocError);
        }
    }
    Ok(())
}

/// Takes a handle from under each of the keys.
pub(crate) fn remove_all(handles: &mut IndexMap<Text, BTreeSet<u64>>, handle: u64, keys: &[Text])
    ensures { Removes handles.old handle (has_key keys.now) handles.new }
{
    for key in keys {
        remove(handles, handle, key);
    }
}

/// The handles that stand under at least one of the keys.
pub(crate) fn find_all(
    handles: &IndexMap<Text, BTreeSet<u64>>,
    alloc: Global,
    keys: &[Text],
) -> Result<BTreeSet<u64>, AllocError>
    ensures found { IfOk result (λ found. (handle : ℕ) → contains nat_cmp found handle ≡ is_under_one handles.now keys.now handle) }
    ensures ordered { IfOk result (λ found. IsOrdered nat_cmp found) }
{
    let mut found = BTreeSet::new(alloc);
    for key in keys {
        add_found(&mut found, handles, key)?;
    }
    Ok(found)
}

// Puts the handles under a key to those that are found.
fn add_found(
    found: &mut BTreeSet<u64>,
    handles: &IndexMap<Text, BTreeSet<u64>>,
    key: &Text,
) -> Result<(), AllocError>
    requires { IsOrdered nat_cmp found.old }
    ensures found { OnOk result ((handle : ℕ) → contains nat_cmp found.new handle ≡ (contains nat_cmp found.old handle || is_under handles.now key.now handle)) }
    ensures ordered { OnOk result (IsOrdered nat_cmp found.new) }
{
    match handles.get(key) {
        Some(under) => add_each(found, under),
        None => Ok(()),
    }
}

fn add_each(found: &mut BTreeSet<u64>, under: &BTreeSet<u64>) -> Result<(), AllocError>
    ensures found { OnOk result ((handle : ℕ) → contains nat_cmp found.new handle ≡ (contains nat_cmp found.old handle || contains nat_cmp under.now handle)) }
    ensures ordered { OnOk result (IsOrdered nat_cmp found.new) }
{
    found.extend(under.iter().copied())
}
