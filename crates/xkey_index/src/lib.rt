//! An index from xkeys to the members that have them: the members of a cache that a purge by xkeys finds, without a
//! walk over the others.
//!
//! Contract for the layer above: an `XkeyIndex` is seen as the list of its members, the newest first, each a handle with
//! its keys. A new member comes first, one that is taken leaves the others in order, and `find` gives the handles of the
//! filter of the list by keys: those of the members that have at least one of them, in the list's order, each once.
#![tactic(auto)]

mod handles;
mod index;

pub use index::XkeyIndex;
