//! The numbered form of a whole VCL text: what it declares, by number, and the blocks of its subroutines.
//!
//! Contract for the layer above: `numbered` makes the `Code` that `specs/Codes.antt` says of a text's items and of the
//! stored functions. It is total, as the numbered form of expressions and statements is.
#![tactic(auto)]

mod blocks;
mod code;
mod compiled;
mod declarations;
mod laws;
mod members;
mod numbering;

pub use code::{Code, Director, Member, number_of};
pub use compiled::Compiled;
pub use laws::{branches_fall, code_falls};
pub use numbering::numbered;
