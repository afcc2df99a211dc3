//! Steps of a cache that has a lurker: calls of callers, and what the lurker does between them.
//!
//! Contract for the layer above: `make_step` makes one step of any `LurkCore`, and its contract says what that does to the history
//! (`Moves` in `specs/Steps.antt`). The laws speak of steps one after another (`Grows`), whatever the cache.
#![tactic(auto)]

mod laws;
mod step;

pub use laws::{calls_have_one_history, lurkers_leave_no_trace, steps_stay_legal};
pub use step::{Came, CoreStep, make_step};
