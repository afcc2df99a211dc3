//! What the attributes of backends and probes say: strings, whole numbers and durations by their names, where a backend is, what
//! it is limited to, and what its probe is.
//!
//! Contract for the layer above: a reader gives the value of the first attribute of a name that is of its type, and none where
//! there is no such attribute (`specs/Readers.antt`). `host_of` and `port_of` read a `.host` that says both
//! (`specs/Address.antt`). What is left out has the usual value (`specs/WindowNumbers.antt`, `BackendLimits.antt`,
//! `Probes.antt`); a window's numbers that don't fit are told by `misfit_place`, and a probe of them has the usual ones.
#![tactic(auto)]

mod address;
mod backend_limits;
mod probe_attributes;
mod readers;
mod window_numbers;

pub use address::{host_of, port_of};
pub use backend_limits::{Limits, limits_of};
pub use probe_attributes::{Probe, each_in_range, probe_with};
pub use readers::{first_duration, first_integer, first_string};
pub use window_numbers::{WindowNumbers, misfit_place, numbers_of};
