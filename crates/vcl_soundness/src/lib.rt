//! What runs of sound texts of VCL never come to.
//!
//! Contract for the layer above: the laws of this crate are contracts of functions that do nothing (`specs/Laws.antt`). No run of
//! a sound text gets stuck to what no sound text has, so the evaluator has no answer for it; the backends that a text in numbers
//! speaks of are there; `set` is refused for its value alone; the functions of the modules `std` and `cookie` are as it is asked of
//! stored functions.
#![tactic(auto)]

mod laws;

pub use laws::{
    backends_are_there, no_run_stuck, program_never_stuck, refused_alone, standard_are_meant,
};
