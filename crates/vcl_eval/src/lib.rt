//! The evaluator of VCL: runs of subroutines that stop where a command is wanted, and go on with its answer.
//!
//! Contract for the layer above: `specs/Runs.antt` says what a run does on a text in numbers, with the answers that it is
//! given: it ends with a word and a context, or it wants a command done. `Machine` gives just that turn by turn.
#![tactic(auto)]

mod finish;
mod going;
mod kinds;
mod machine;
mod returns;
mod run_state;
mod setting;
mod statements;
mod task;

pub use finish::{Finish, Plan};
pub use machine::{Asked, Machine, Waiting};
pub use run_state::RunState;
pub use task::{Stop, Task};
