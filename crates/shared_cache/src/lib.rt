//! One cache that many callers share: each call is made in a turn of its own, and all calls stand in one history.
//!
//! Contract for the layer above: each caller has a pass, which knows the history that it has seen. A call that is answered
//! adds one entry to all that the pass had seen and to what others entered since: this call by the pass's number, with the
//! moment and the reply that were told. The history that is seen is legal by the cache's law. Passes are split off under
//! numbers of their own and joined again, and a closed cache gives its history out. A round of the lurker enters nothing. That a
//! turn comes is not promised.
#![tactic(auto)]

mod errands;
mod kept;
mod sharing;

pub use errands::Errand;
pub use kept::Origin;
pub use sharing::{CachePass, SharedCache};
