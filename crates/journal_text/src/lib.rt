//! The journal of a run: how a history is written as lines of text.
//!
//! Contract for the layer above: what is written of an entry is the one text that `specs/Grammar.antt` gives it, with numbers
//! within the range of their types.
#![tactic(auto)]

mod calls;
mod line;
mod parts;
mod putting;
mod replies;
mod showing;
mod shown;
mod texts;
mod word;
mod words;
mod writer;

pub use line::{First, Line, Said};
pub use showing::show;
pub use shown::{Shown, ShownBan};
pub use word::Word;
pub use writer::{entry_line, first_line, push_entry, push_first, push_line};
