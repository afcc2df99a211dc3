//! The numbered form of VCL: expressions, statements and blocks as flat lists in which each part has a number that is less
//! than its whole's, and names by number.
//!
//! Contract for the layer above: `specs/Expressions.antt` and `specs/Statements.antt` say what each part of a tree is
//! numbered as, and `Arena::expression` and `Arena::block` do just that. They are total: what has no meaning in the language
//! is numbered as `Absent`.
#![tactic(auto)]

mod arena;
mod callees;
mod expressions;
mod names;
mod node;
mod statements;

pub use arena::Arena;
pub use callees::{Builtin, all_callees, builtin_of, word_of};
pub use names::{Callee, Read, Target, acl_of, callee_of, read_of, subroutine_of, target_of};
pub use node::{Action, Arguments, Arm, Block, Branch, Choice, Node, ReturnWord};
