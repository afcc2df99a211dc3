//! Words: how a line of the console is cut into words, and how words are written so that they are read again.
//!
//! Contract for the layer above: `split` gives the one list of words that a line has by the definition in
//! `specs/`, and `Syntax` exactly where it has none; what `write_words` writes of words is split into them again.
#![tactic(auto)]

mod line;
mod word;
mod writer;

pub use line::{LINE_LIMIT, Words, WordsError, one_list, split};
pub use writer::write_words;
