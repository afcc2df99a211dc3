//! The values of VCL and its patterns.
//!
//! Contract for the layer above: what a value is as a text and in a condition, how two values compare, and
//! what their sum and difference are, are functions on values in `specs/`, and each call here answers what
//! its function does. A pattern is seen as its text; what it finds and replaces in a text is what the crate
//! `regex` means by the text's reading.
#![tactic(auto)]

mod comparisons;
mod pattern;
mod replacement;
mod sums;
mod value;

pub use comparisons::{Comparison, compare};
pub use pattern::{MAX_PATTERN, Pattern, PatternError};
pub use sums::{MAX_MILLISECONDS, MAX_TEXT, ValueError, difference, sum};
pub use value::{Backend, Kind, Value};
