// The address lists that ACLs are, and what is wrong with their entries.
ghost use Rattle.std.specs.Prelude.{◌≡◌, ◌<◌, ◌≤◌, ◌∷◌, ◌++◌, [], length, IfOk, IfSome, None};
ghost use Rattle.acl_match.specs.Acl.{AllShort, first_clash};
ghost use Rattle.vcl_check.specs.Acls.{is_mask, mask_bits, mask_fault, network, network_of, networks, entry_fault, address_place, acl_fault};
ghost use Rattle.vcl_check.specs.Folded.{numbered};

use crate::rules::unless;
use crate::told::{fault_at, lesser};
use acl_match::{Acl, AclEntries, AclEntry as Network, AclError, address_of};
use std::alloc::{AllocError, Global};
use units::Sequence;
use vcl_tree::{AclEntry, Fault, Mask, Refusal};

fn is_mask(bits: i64) -> bool
    ensures { result ≡ is_mask bits }
{
    !(bits < 0) && bits < 33
}

// The number of an address's first bits that an entry with this mask asks for: all 32 where none is written, none where it
// isn't from 0 to 32.
fn mask_bits(mask: Option<Mask>) -> Option<u8>
    ensures { result ≡ mask_bits mask }
{
    match mask {
        None => Some(32),
        Some(mask) => {
            if is_mask(mask.bits) {
                Some(mask.bits as u8)
            } else {
                None
            }
        }
    }
}

fn mask_fault(mask: Option<Mask>) -> Option<u32>
    ensures { result ≡ mask_fault mask }
{
    match mask {
        None => None,
        Some(mask) => unless(is_mask(mask.bits), mask.place),
    }
}

fn network(negated: bool, address: Option<[u8; 4]>, mask: Option<u8>) -> Option<Network>
    ensures { result ≡ network negated address mask }
{
    match (address, mask) {
        (Some(address), Some(mask)) => Some(Network {
            address,
            mask,
            negated,
        }),
        _ => None,
    }
}

fn network_of(entry: &AclEntry) -> Option<Network>
    ensures { result ≡ network_of entry.now }
{
    let address = address_of(entry.address.bytes());
    network(entry.excluded.is_some(), address, mask_bits(entry.mask))
}

/// The networks of entries, in their order and as far as the first whose address or mask is none.
pub fn networks(alloc: Global, entries: &[AclEntry]) -> Result<AclEntries, AllocError>
    ensures { IfOk result (λ out. out ≡ networks entries.now) }
{
    let mut out = Sequence::new(alloc);
    for entry in entries {
        match network_of(entry) {
            Some(network) => out.push(network)?,
            None => return Ok(out),
        }
    }
    Ok(out)
}

// The number of the first of these networks that clashes with one before it. Where none does, they are one address list more.
fn first_clash(
    alloc: Global,
    networks: AclEntries,
    acls: &mut Vec<Acl>,
) -> Result<Option<usize>, AllocError>
    requires { AllShort networks }
    ensures told { IfOk result (λ clash. clash ≡ first_clash networks) }
    ensures within { IfOk result (λ clash. IfSome clash (λ k. k < length networks)) }
    ensures kept { IfOk result (λ clash. clash ≡ None → acls.new.items ≡ acls.old.items ++ networks ∷ []) }
{
    match Acl::of(alloc, networks) {
        Ok(acl) => {
            acls.push(acl)?;
            Ok(None)
        }
        Err(AclError::Clash { place }) => Ok(Some(place)),
        Err(AclError::NoMemory) => Err(AllocError),
        Err(AclError::Mask { place: _ }) => unreachable!(),
    }
}

fn among_entries(entries: &[AclEntry]) -> Option<Fault>
    ensures { result ≡ numbered entry_fault 0 None entries.now }
{
    let mut best = None;
    for entry in entries {
        best = lesser(best, entry_fault(entry));
    }
    best
}

fn entry_fault(entry: &AclEntry) -> Option<Fault>
    ensures { result ≡ entry_fault 0 entry.now }
{
    let has_address = address_of(entry.address.bytes()).is_some();
    lesser(
        fault_at(Refusal::Kind, unless(has_address, entry.address_place)),
        fault_at(Refusal::Kind, mask_fault(entry.mask)),
    )
}

fn address_place(entries: &[AclEntry], number: Option<usize>) -> Option<u32>
    ensures { result ≡ address_place entries.now number }
{
    match number {
        None => None,
        Some(number) => match entries.get(number) {
            Some(entry) => Some(entry.address_place),
            None => None,
        },
    }
}

/// The first fault among the entries of an ACL. One without a fault is one address list more.
pub fn acl_fault(
    alloc: Global,
    entries: &[AclEntry],
    acls: &mut Vec<Acl>,
) -> Result<Option<Fault>, AllocError>
    ensures told { IfOk result (λ found. found ≡ acl_fault entries.now) }
    ensures kept { IfOk result (λ found. found ≡ None → acls.new.items ≡ acls.old.items ++ networks entries.now ∷ []) }
{
    let clash = first_clash(alloc, networks(alloc, entries)?, acls)?;
    Ok(lesser(
        among_entries(entries),
        fault_at(Refusal::Twice, address_place(entries, clash)),
    ))
}
