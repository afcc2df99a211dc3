//! Address lists of VCL: networks of IPv4 with a sign each, and whether a list takes an address.
//!
//! Contract for the layer above: an `Acl` is seen as the list of its entries, in which no mask is over 32
//! and no network stands with both signs; it takes an address exactly where the entry with the longest
//! mask that holds the address isn't negated.
#![tactic(auto)]

mod acl;
mod address;
mod deciding;
mod entry;
mod faults;
mod network;

pub use acl::{Acl, AclError};
pub use address::address_of;
pub use entry::{AclEntries, AclEntry};
