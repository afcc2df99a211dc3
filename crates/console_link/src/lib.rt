//! A console's connection: lines, each answered before the next is read.
//!
//! Contract for the layer above: `serve_console` reads lines from a link, makes the call of each over a shared cache by its pass, and
//! writes the console's answer, until `quit`, the end of the input, a line over its limit, a fault, a full history or want of memory.
//! The lines are those in the link's bytes, in order; each one's call is the entry at its place; what the link took is the answers,
//! in order (`specs/Talks.antt`).
#![tactic(auto)]

mod answering;
mod desk;
mod instructions;
mod laws;
mod lines;
mod serving;
mod talk;
mod too_long;

pub use desk::{Desk, Site};
pub use laws::{one_line, quit_ends};
pub use serving::serve_console;
pub use talk::{ConsoleEnd, ConsoleLine, ConsoleTalk};
