//! Sessions that differ in their lines of the lurker.
//!
//! Contract for the layer above: a law of `replay`'s sessions, as the contract of a function that does nothing.
#![tactic(auto)]

mod laws;

pub use laws::lurk_lines_leave_no_trace;
