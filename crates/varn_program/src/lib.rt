//! What the program does, from its words to its status.
//!
//! Contract for the programs above: `run` does what the words say over a source and a sink, and hands out its status
//! and the history of its cache; `specs/` say what each status means.
#![tactic(auto)]

mod command;
mod functions;
mod job;
mod laws;
mod limits;
mod loading;
mod outcome;
mod playing;
mod words;

pub use command::{replay, run};
pub use functions::do_with_std;
pub use job::Job;
pub use laws::one_replay;
pub use loading::load;
pub use outcome::{Note, Outcome, Status};
pub use words::faulty_word;
