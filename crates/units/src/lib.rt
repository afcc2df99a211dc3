//! The values that every other crate is made of: texts, lists, and the small grammars of numbers and
//! quoted texts.
//!
//! Contract for the layer above: a `Text` is seen by every clause as the list of its bytes, a
//! `Sequence` as the list of its items, and each reading is Some exactly where its grammar in `specs/`
//! has one.
#![tactic(auto)]

mod blanks;
mod copied;
mod durations;
mod folding;
mod memory;
mod numbers;
mod quotes;
mod sequence;
mod shared;
mod text;

pub use blanks::trim_blanks;
pub use copied::Copied;
pub use durations::{one_duration, read_millis};
pub use folding::fold_eq;
pub use memory::out_of_memory;
pub use numbers::{one_number, push_number, read_number, value_of_digits, write_number};
pub use quotes::{end_of_quoted, one_quoted, quote, quote_reads_back, quoted, read_escape};
pub use sequence::Sequence;
pub use shared::Shared;
pub use text::Text;
