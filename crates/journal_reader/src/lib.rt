//! A line of a journal, read back.
//!
//! Contract for the layer above: `read_line` gives a line exactly where the text is that line's by the definition in
//! `journal_text` (`IsLine`), and else tells the one fault that `specs/Refusals.antt` gives the text, with its column; want
//! of memory alone is free.
#![tactic(auto)]

mod calls;
mod cursor;
mod fault;
mod front;
mod items;
mod keys;
mod laws;
mod lines;
mod parts;
mod reading;
mod replies;
mod word;

pub use fault::{Fault, ReadError, Refusal, Wanted};
pub use laws::{one_history, one_text};
pub use reading::read_line;
