//! The probes of a text's backends: which one each of them has, by its name or in braces.
//!
//! Contract for the layer above: `probes_of` gives the probe of each backend that has one, in the order of the backends
//! (`specs/TextProbes.antt`). The numbers of their windows are in range, in a sound text and in any other
//! (`probes_in_range`).
#![tactic(auto)]

mod bodies;
mod laws;
mod text_probes;

pub use laws::probes_in_range;
pub use text_probes::probes_of;
