//! What a journal is as a whole, and what is wrong with bytes that are none.
//!
//! Contract for the layer above: bytes are one journal of a lawful history at most (`one_journal`), and else they are bad at one
//! line for one least kind of fault (`one_fault`), and never both (`never_both`). The lines before that one are those that some
//! lawful journal begins with, and with it none begins so (`stops`). A journal is also a list of steps, each of which may come
//! behind those before it (`journals_are_steps`, `steps_are_journals`), by which it can be followed line by line.
#![tactic(auto)]

mod kind;
mod laws;

pub use kind::Kind;
pub use laws::{
    journals_are_steps, never_both, one_fault, one_journal, steps_are_cut, steps_are_journals,
    stops,
};
