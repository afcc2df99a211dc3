// The entries of an address list.
use units::Sequence;

/// A network and its sign: the addresses whose first `mask` bits are those of `address`. The rest of
/// `address` doesn't count.
#[derive(Clone, Copy, Debug, PartialEq, Eq)]
pub struct AclEntry {
    pub address: [u8; 4],
    pub mask: u8,
    pub negated: bool,
}

/// The entries of an address list, in its order.
pub type AclEntries = Sequence<AclEntry>;
