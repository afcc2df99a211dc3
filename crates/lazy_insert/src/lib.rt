//! Insertions over the store of the lazy cache.
//!
//! Contract for the layer above: `insert` answers as `lazy_law` says of the call, and leaves what that says where the object was
//! stored. Where it wasn't, what was kept stays, or what stands for the same.
#![tactic(auto)]

mod inserting;
mod laws;
mod making;
mod place;
mod putting;

pub use inserting::insert;
pub use laws::tidied_ones_are_unseen;
