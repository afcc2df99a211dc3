//! One probe of a backend: what is asked of it, and what its answer says.
//!
//! Contract for the layer above: `get_of` gives the request of a probe (`specs/Probes.antt`). `probe` makes one exchange of it with the
//! backend's host and port, within the probe's time, and tells it with its moment and whether it is good: exactly where a reply came
//! with the expected status.
#![tactic(auto)]

mod asking;
mod probing;

pub use asking::get_of;
pub use probing::{Probed, probe};
