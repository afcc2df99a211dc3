//! Runs of subroutines that do one thing each, for the tests of a round's states, which need no text of VCL.
//!
//! Contract for the layer above: a `ScriptRun` is a `Runner` on a `Script`, and its turns are those of `specs/Scripts.antt`.
#![tactic(auto)]

mod script;

pub use script::{Route, Script, ScriptRun, Stage};
