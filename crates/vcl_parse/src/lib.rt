//! VCL text to a tree, exactly by the grammar, with the exact place of a refusal.
//!
//! Contract for the layer above: `parse` gives the tree that the text's tokens have by the grammar of `vcl_tree`
//! (`specs/Grammar.antt` there), or the refusal and its place, as `specs/Parsing.antt` says them of the grammar.
#![tactic(auto)]

mod attributes;
mod expressions;
mod items;
mod lists;
mod making;
mod names;
mod parsing;
mod signs;
mod starts;
mod statements;
mod stop;

pub use parsing::{one_tree, parse};
