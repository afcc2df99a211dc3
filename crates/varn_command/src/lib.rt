//! What the program does, from its words to its status, with all its commands.
//!
//! Contract for the programs above: `run` does what the words say, over a source and a sink, and over a world where they ask for a server
//! (`specs/Asking.antt`). `perform` calls it with the process's own words, streams and outside.
#![tactic(auto)]

mod explaining;
mod outcome;
mod process;
mod running;

pub use outcome::{Note, Outcome, Probed, Status};
pub use process::{Start, perform, refuse_start};
pub use running::run;
