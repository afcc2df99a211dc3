//! The built-in text of VCL, texts that it is joined with, and their programs.
//!
//! Contract for the layer above: `joined_tree` gives the joined tree of a text (`specs/Joined.antt`), which has the
//! text's items with those of `BUILT_IN` behind them, or says why the text has none; `checked` gives the joined tree
//! where it is sound, and `program_of` its program in numbers, or both say why there is none (`specs/Refusals.antt`).
#![tactic(auto)]

mod built_in;
mod joined;
mod laws;
mod program;

pub use built_in::BUILT_IN;
pub use joined::joined_tree;
pub use laws::built_in_is_read;
pub use program::{checked, program_of};
