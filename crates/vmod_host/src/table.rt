// Stored functions that a VCL text may call.
ghost use Rattle.std.specs.Prelude.{◌≡◌, ◌<◌, ◌==◌, ◌↔◌, false, map, position, length, slice_get, IfOk, IsErrOf, OnOk, Some};
ghost use Rattle.std.proofs.Props.{props};
ghost use Rattle.vmod_host.specs.Stored.{entry_of, is_named, HaveOwnTags};

use crate::signature::{Signature, Stored};
use crate::vmod::Vmod;
use std::alloc::{AllocError, Global};
use std::collections::BTreeSet;
use units::Sequence;

/// Why a list of stored functions is no table.
#[derive(Debug, Drop)]
pub enum TableError {
    /// Two functions have one tag.
    Twice,
    NoMemory,
}

impl From<AllocError> for TableError {
    ghost use Rattle.vmod_host.specs.declared.table.TableError.{TableError};

    ghost from_gives = { λ _ error. error ≡ TableError.NoMemory };

    fn from(_error: AllocError) -> TableError {
        TableError::NoMemory
    }
}

/// Stored functions, no two of which have one tag. Clauses see the list of tags and signatures.
#[derive(Drop)]
pub struct VmodTable {
    pub stored: Sequence<Stored>,
    vmods: Vec<Vmod>,
    ghost own_tags: { HaveOwnTags stored } by { Prim.hlevel props },
    ghost fits: { map (λ vmod. entry_of vmod.tag vmod.signature) vmods.items ≡ stored },
}

impl VmodTable {
    /// The table of these functions; Twice where two of them have one tag.
    pub fn of(alloc: Global, list: Vec<Vmod>) -> Result<VmodTable, TableError>
        ensures ok { IfOk result (λ table. table.stored ≡ map (λ vmod. entry_of vmod.tag vmod.signature) list.items) }
        ensures own_tags { OnOk result (HaveOwnTags (map (λ vmod. entry_of vmod.tag vmod.signature) list.items)) }
        ensures twice { IsErrOf result TableError.Twice → HaveOwnTags (map (λ vmod. entry_of vmod.tag vmod.signature) list.items) → ⊥ }
    {
        let stored = stored_of(alloc, list.as_slice())?;
        if has_twice(alloc, stored.as_slice())? {
            return Err(TableError::Twice);
        }
        Ok(VmodTable {
            stored,
            vmods: list,
        })
    }

    /// The number of the first function of this module with this name, counted from 0.
    pub fn find(&self, module_name: &[u8], name: &[u8]) -> Option<usize>
        ensures { result ≡ position (λ entry. is_named module_name.now name.now entry.signature) self.now.stored }
    {
        self.stored
            .as_slice()
            .iter()
            .position(|entry| entry.signature.is_named(module_name, name))
    }

    /// The number of the function with this tag.
    pub fn find_tag(&self, tag: u32) -> Option<usize>
        ensures { result ≡ position (λ entry. entry.tag == tag) self.now.stored }
    {
        self.stored
            .as_slice()
            .iter()
            .position(|entry| entry.tag == tag)
    }

    /// The function of this number.
    pub fn at(&self, number: usize) -> &Vmod
        requires { number < length self.now.stored }
        ensures { slice_get self.now.stored number ≡ Some (entry_of result.now.tag result.now.signature) }
    {
        &self.vmods[number]
    }
}

// Tags and signatures of a list of functions.
fn stored_of(alloc: Global, list: &[Vmod]) -> Result<Sequence<Stored>, AllocError>
    ensures { IfOk result (λ entries. entries ≡ map (λ vmod. entry_of vmod.tag vmod.signature) list.now) }
{
    let mut entries = Sequence::new(alloc);
    for vmod in list {
        entries.push(Stored {
            tag: vmod.tag,
            signature: vmod.signature.copy(alloc)?,
        })?;
    }
    Ok(entries)
}

fn has_twice(alloc: Global, entries: &[Stored]) -> Result<bool, AllocError>
    ensures { IfOk result (λ twice. HaveOwnTags entries.now ↔ (twice ≡ false)) }
{
    let mut tags = BTreeSet::new(alloc);
    for entry in entries {
        if !tags.insert(entry.tag)? {
            return Ok(true);
        }
    }
    Ok(false)
}
