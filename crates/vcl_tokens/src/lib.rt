//! VCL text to tokens: at each place the longest token is read, blanks and comments passed over.
//!
//! Contract for the layer above: `tokens` gives exactly the tokens of the longest-match reading of
//! `specs/Reading.antt`, each with its place, and refuses a text exactly for its length or at its first fault.
//! A text has at most one reading, and none where it has a fault.
#![tactic(auto)]

mod longest;
mod pieces;
mod spelling;
mod values;
mod words;

pub use pieces::{TEXT_LIMIT, Tokens, one_reading, tokens};
pub use spelling::{Form, State};
