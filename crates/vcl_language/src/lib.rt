//! The tables of the VCL language: variables, functions, words of return, modules, attributes and built-in subroutines.
//!
//! Each table is data, once, that `docs/VCL.md` shows line by line. Contract for the layer above: a look-up gives the row
//! of the name, as the functions on these tables in `specs/` say, which a definition of the layer above cites too.
#![tactic(auto)]

mod attributes;
mod functions;
mod laws;
mod modules;
mod names;
mod scope;
mod subroutines;
mod variables;
mod words;

pub use attributes::{AttributeKind, Owner, attribute_named};
pub use functions::{
    Function, Method, NOTHING, Parameter, Slot, Takes, function_named, method_named, method_of,
};
pub use laws::{
    backend_attributes_are_those, fields_are_those, functions_are_those, makers_are_those,
    modules_are_those, probe_attributes_are_those, subroutines_are_those, variables_are_those,
    words_are_those,
};
pub use modules::{Module, is_module, maker_named};
pub use scope::{Scope, Subroutine, has};
pub use subroutines::{SUBROUTINE_NAMES, SUBROUTINES, is_reserved, subroutine_named};
pub use variables::{Variable, variable_named};
pub use words::{Word, word_named};
