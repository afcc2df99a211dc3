//! The words that ask for a server or for a load: options, their ranges and what they are where they aren't given.
//!
//! Contract for the layer above: `read_order` and `read_load` give what options ask for by the grammar of `specs/Words.antt`, or their first
//! fault and its place (`specs/Faults.antt`); and it gives a fault only where they are outside the grammar.
#![tactic(auto)]

mod fault;
mod given;
mod name;
mod order;
mod reading;

pub use fault::{Fault, OrderError};
pub use name::{CommandName, OptionName};
pub use order::{LoadOptions, ServeOptions};
pub use reading::{read_load, read_order};
