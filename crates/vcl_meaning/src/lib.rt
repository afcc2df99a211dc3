//! What runs of subroutines of VCL do, on a text with its names.
//!
//! Contract for the layer above: `specs/Meaning.antt` says what a run does, one line for each kind of statement, and
//! `numbers_run` that the run of a sound text in numbers, which `vcl_eval` carries out, does just that.
#![tactic(auto)]

mod laws;

pub use laws::numbers_run;
