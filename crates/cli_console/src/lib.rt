//! The console: what a line says, and the text of each answer (varnish-cli(7)).
//!
//! Contract for the layer above: `command` gives the one command that a line is by `specs/Lines.antt`, or the answer
//! that says why it is none; `loaded` the call that loads the text of a file; `answer` and `pong` the text of each other
//! answer. The commands are the table in `specs/Commands.antt`, and what an answer says is the table in
//! `specs/Messages.antt`.
#![tactic(auto)]

mod answers;
mod command;
mod commands;
mod laws;
mod listings;
mod message;
mod names;
mod orders;
mod refusal;
mod sources;
mod texts;
mod words;

pub use answers::{answer, pong};
pub use command::{Command, loaded, read_command};
pub use laws::{console_calls_are_answered, one_meaning};
pub use refusal::CliAnswer;
