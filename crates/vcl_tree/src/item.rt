// A whole text: its version and its items.
use crate::attribute::Attribute;
use crate::name::Name;
use crate::statement::Block;
use units::{Sequence, Text};

/// What a VCL text reads as.
#[derive(Drop)]
pub struct Tree {
    pub version: Version,
    pub items: Sequence<Item>,
}

#[derive(Clone, Copy, Debug, PartialEq, Eq)]
pub enum Version {
    Four,
    FourOne,
}

/// What stands at the top of a text. A place is that of its first token.
#[derive(Drop)]
pub enum Item {
    Import(u32, Name),
    Backend(u32, Name, Sequence<Attribute>),
    /// A backend that is `none`.
    NoBackend(u32, Name),
    Probe(u32, Name, Sequence<Attribute>),
    Acl(u32, Name, Sequence<AclEntry>),
    Sub(u32, Name, Block),
}

/// An entry of an ACL.
#[derive(Drop)]
pub struct AclEntry {
    /// The place of the `!`, if the address is excluded.
    pub excluded: Option<u32>,
    pub address_place: u32,
    pub address: Text,
    /// The number behind the `/`, and its place.
    pub mask: Option<Mask>,
}

/// How many bits of an address count.
#[derive(Clone, Copy, Debug, PartialEq, Eq)]
pub struct Mask {
    pub place: u32,
    pub bits: i64,
}
