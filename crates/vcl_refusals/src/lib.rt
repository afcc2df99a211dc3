//! What a text of VCL is refused for is one thing.
//!
//! Contract for the layer above: the laws of this crate are contracts of functions that do nothing (`specs/Laws.antt`). A
//! text has one joined tree at most. And a plain text, of which no pattern nests too deep for
//! `regex`, is accepted with one tree or refused for one cause at one place (`specs/Outcomes.antt`).
#![tactic(auto)]

mod laws;

pub use laws::{one_joined_tree, one_outcome};
