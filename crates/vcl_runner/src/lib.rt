//! Runs of VCL as the states of a round know them: the evaluator's machine as a `Runner`.
//!
//! Contract for the layer above: `specs/Standing.antt` says where a run stands on a program, `specs/Targets.antt` what the
//! program takes a backend or a director for.
#![tactic(auto)]

mod executable;
mod run;
mod targets;

pub use executable::Executable;
pub use run::Run;
