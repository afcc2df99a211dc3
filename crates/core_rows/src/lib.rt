//! What rows say of a cache: calls by their words, replies by a word and two numbers, and steps of any core. A library for tests
//! alone, for `cache_tests` and `ban_tests`.
//!
//! Contract for the layer above: `core_of` gives a core without an entry that keeps no segments, `core_within` one that may, and
//! `step` keeps what a core asks of its caller, that nobody looks up who waits.
#![tactic(auto)]

mod calls;
mod objects;
mod replies;
mod stepping;
mod texts;

pub use calls::call;
pub use objects::{object, view};
pub use replies::{Shown, history_shown, shown};
pub use stepping::{core_of, core_within, step};
