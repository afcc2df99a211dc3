//! The syntax tree of VCL, the tokens that it is read from, and the grammar that ties the two.
//!
//! A clause sees a part of a tree as a `Phrase` of `specs/Phrase.antt`, which has the node's shape, its texts and
//! numbers, and the place of each of its first tokens, and not where the parts lie in memory. `specs/Grammar.antt` and
//! the grammars of items' parts beside it say which tokens are which phrase.
#![tactic(auto)]

mod attribute;
mod endings;
mod error;
mod expression;
mod item;
mod name;
mod places;
mod statement;
mod token;

pub use attribute::{Attribute, AttributeValue};
pub use endings::{behind, dot_in, ends_in};
pub use error::{Fault, Refusal, VclError, one_order};
pub use expression::{Addend, Addition, Comparison, Expression, Operation};
pub use item::{AclEntry, Item, Mask, Tree, Version};
pub use name::Name;
pub use places::first_tokens;
pub use statement::{Action, Block, Branch, Statement};
pub use token::{Sign, Token, TokenKind, Word};
