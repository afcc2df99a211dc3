//! The VCL that a server begins under, from a file of the world.
//!
//! Contract for the layer above: `read_boot` gives the text of the file of a name, which is sound, with the backends that it declares,
//! or says why it can't (`specs/Booting.antt`).
#![tactic(auto)]

mod error;
mod reading;

pub use error::BootError;
pub use reading::read_boot;
