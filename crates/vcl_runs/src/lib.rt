//! An evaluator of subroutines as the states of a round know it.
//!
//! Contract for the layer above: a `Runner` begins a subroutine and goes on by answers. Its turns are those that the
//! answers so far lead to on its program, and there is one such turn. `Programs` has the programs of texts: each that it gives for a
//! text is one of it, and all programs of a text mean the same. `specs/Languages.antt` says what steers rounds in these words.
#![tactic(auto)]

mod programs;
mod runner;

pub use programs::Programs;
pub use runner::Runner;
