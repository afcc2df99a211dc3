//! Expressions of VCL: evaluations that stop where a purge by keys is wanted, and go on with its count.
//!
//! Contract for the layer above: `specs/Meaning.antt` says what an expression is worth, on the text with its names;
//! `specs/Nodes.antt` says the same of the text in numbers, and what is left of an evaluation that has stopped.
#![tactic(auto)]

mod calls;
mod evaluation;
mod frame;
mod laws;
mod leaves;
mod operators;
mod stack;

pub use calls::fitted;
pub use evaluation::{Evaluation, Outcome};
pub use frame::{Binary, Doing, Frame, Unary};
pub use laws::{compiled_falls, numbers_mean};
pub use operators::short_text;
pub use stack::Stack;
