// An address list without a fault, and whether it takes an address.
ghost use Rattle.std.specs.Prelude.{◌≡◌, ◌≤◌, ℕ, ◌↔◌, ◌⊎◌, IsTrue, IfOk, IsErrOf};
ghost use Rattle.acl_match.specs.Acl.{IsSound, IsFirstMask, IsFirstClash, Matches};

use crate::deciding::decider;
use crate::entry::AclEntries;
use crate::faults::first_fault;
use std::alloc::Global;
use std::error::Error;
use std::fmt;
use std::marker::Model;

/// Why entries are no address list.
#[derive(Clone, Copy, Debug, PartialEq, Eq)]
pub enum AclError {
    /// The entry at this place is the network of an earlier one with the other sign.
    Clash { place: usize },
    /// The entry at this place has a mask over 32.
    Mask { place: usize },
    NoMemory,
}

impl fmt::Display for AclError {
    fn fmt<W: fmt::Write>(&self, f: &mut fmt::Formatter<W>) -> fmt::Result {
        match self {
            AclError::Clash { place } => write!(
                f,
                "entry {place} is the network of an earlier one with the other sign"
            ),
            AclError::Mask { place } => write!(f, "entry {place} has a mask over 32"),
            AclError::NoMemory => f.write_str("out of memory"),
        }
    }
}

impl Error for AclError {}

/// An address list: entries without a fault.
#[derive(Drop)]
pub struct Acl {
    entries: AclEntries,
}

impl Model for Acl {
    ghost use Rattle.std.specs.Prelude.{List};
    ghost use Rattle.acl_match.specs.declared.entry.AclEntry.{AclEntry};
    ghost use Rattle.acl_match.specs.Acl.{IsSound};

    ghost Value = { List AclEntry };

    ghost view = { λ a. a.entries };

    ghost invariant = { λ a. IsSound a.entries };
}

impl Acl {
    /// The address list of these entries. Memory is wanting only where they have no fault.
    pub fn of(alloc: Global, entries: AclEntries) -> Result<Acl, AclError>
        ensures ok { IfOk result (λ acl. (acl ≡ entries) × IsSound entries) }
        ensures mask { (place : ℕ) → IsErrOf result (AclError.Mask place) ↔ IsFirstMask entries place }
        ensures clash { (place : ℕ) → IsErrOf result (AclError.Clash place) ↔ IsFirstClash entries place }
        ensures wanting { IsErrOf result AclError.NoMemory → IsSound entries }
    {
        match first_fault(alloc, entries.as_slice()) {
            Ok(()) => Ok(Acl { entries }),
            Err(fault) => Err(fault),
        }
    }

    /// Whether the list takes an address: the entry with the longest mask that holds it isn't negated.
    /// An address that no entry holds isn't taken.
    pub fn matches(&self, address: [u8; 4]) -> bool
        ensures { IsTrue result ↔ Matches self.now address }
    {
        match decider(self.entries.as_slice(), address) {
            Some(entry) => !entry.negated,
            None => false,
        }
    }
}
