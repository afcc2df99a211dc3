// The first fault among entries.
ghost use Rattle.std.specs.Prelude.{◌≡◌, ◌≢◌, ◌≤◌, ◌∷◌, ◌++◌, [], ℕ, List, ◌↔◌, IsTrue, IfOk, OnOk, IsErrOf, Err, Any, false};
ghost use Rattle.acl_match.specs.declared.entry.AclEntry.{AclEntry};
ghost use Rattle.acl_match.specs.Acl.{IsSound, IsFirstMask, IsFirstClash, Clash};
ghost use Rattle.acl_match.specs.Signs.{Records};

use crate::acl::AclError;
use crate::entry::AclEntry;
use crate::network::{Network, network_of};
use std::alloc::{AllocError, Global};
use std::collections::BTreeMap;

// An address has so many bits.
const MAX_MASK: u8 = 32;

/// The first fault among entries, told at the place at which it is complete. Memory is wanting only where there is
/// none: without memory each entry is compared with those before it.
pub fn first_fault(alloc: Global, entries: &[AclEntry]) -> Result<(), AclError>
    ensures ok { OnOk result (IsSound entries.now) }
    ensures mask { (place : ℕ) → IsErrOf result (AclError.Mask place) → IsFirstMask entries.now place }
    ensures clash { (place : ℕ) → IsErrOf result (AclError.Clash place) → IsFirstClash entries.now place }
    ensures wanting { IsErrOf result AclError.NoMemory → IsSound entries.now }
{
    match fault_by_network(alloc, entries) {
        Err(AclError::NoMemory) => match fault_by_pair(entries) {
            Ok(()) => Err(AclError::NoMemory),
            Err(fault) => Err(fault),
        },
        told => told,
    }
}

// The first fault, found by comparing each entry with those before it.
fn fault_by_pair(entries: &[AclEntry]) -> Result<(), AclError>
    ensures ok { OnOk result (IsSound entries.now) }
    ensures mask { (place : ℕ) → IsErrOf result (AclError.Mask place) → IsFirstMask entries.now place }
    ensures clash { (place : ℕ) → IsErrOf result (AclError.Clash place) → IsFirstClash entries.now place }
    ensures told { result ≢ Err AclError.NoMemory }
{
    for (place, entry) in entries.iter().enumerate() {
        if entry.mask > MAX_MASK {
            return Err(AclError::Mask { place });
        }
        if clashes_with_any(entry, &entries[..place]) {
            return Err(AclError::Clash { place });
        }
    }
    Ok(())
}

fn clashes_with_any(entry: &AclEntry, others: &[AclEntry]) -> bool
    requires { entry.now.mask ≤ 32 }
    ensures { IsTrue result ↔ Any (Clash entry.now) others.now }
{
    others.iter().any(|other| is_clash(entry, other))
}

fn is_clash(entry: &AclEntry, other: &AclEntry) -> bool
    requires { entry.now.mask ≤ 32 }
    ensures { IsTrue result ↔ Clash entry.now other.now }
{
    entry.mask == other.mask
        && network_of(entry.address, entry.mask).number
            == network_of(other.address, other.mask).number
        && entry.negated != other.negated
}

// The first fault, found with the sign of each network so far.
fn fault_by_network(alloc: Global, entries: &[AclEntry]) -> Result<(), AclError>
    ensures ok { OnOk result (IsSound entries.now) }
    ensures mask { (place : ℕ) → IsErrOf result (AclError.Mask place) → IsFirstMask entries.now place }
    ensures clash { (place : ℕ) → IsErrOf result (AclError.Clash place) → IsFirstClash entries.now place }
{
    let mut signs: BTreeMap<Network, bool> = BTreeMap::new(alloc);
    for (place, entry) in entries.iter().enumerate() {
        if entry.mask > MAX_MASK {
            return Err(AclError::Mask { place });
        }
        match clashes(&mut signs, entry) {
            Ok(false) => {}
            Ok(true) => return Err(AclError::Clash { place }),
            Err(_) => return Err(AclError::NoMemory),
        }
    }
    Ok(())
}

// Whether one of the entries whose signs are recorded clashes with this one. If none does, its sign is
// recorded beside theirs.
fn clashes(signs: &mut BTreeMap<Network, bool>, entry: &AclEntry) -> Result<bool, AllocError>
    requires { entry.now.mask ≤ 32 }
    ensures clash { (before : List AclEntry) → Records before signs.old
        → IfOk result (λ clash. IsTrue clash → Any (Clash entry.now) before) }
    ensures none { (before : List AclEntry) → Records before signs.old
        → IfOk result (λ clash. clash ≡ false → Records (before ++ entry.now ∷ []) signs.new) }
{
    let network = network_of(entry.address, entry.mask);
    match signs.insert(network, entry.negated)? {
        Some(negated) => Ok(negated != entry.negated),
        None => Ok(false),
    }
}
