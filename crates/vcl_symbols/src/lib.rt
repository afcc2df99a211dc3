//! What names and calls of a VCL text lead to: the first place of a name in a list, what the names of a text stand
//! for, with their numbers, the subroutines that calls lead to from one, and the first call on a circle.
//!
//! Contract for the layer above: a `NameIndex` is seen as the list of its names, and `find` answers the
//! position of the first that is equal. A `SymbolTable` answers what `specs/Known.antt` says of a name, for the checker and
//! for the numbered form alike. A `CallGraph` is the list of its calls; what calls lead to, and which
//! of them are on a circle, are relations on that list in `specs/`.
#![tactic(auto)]

mod call_graph;
mod circles;
mod components;
mod name_index;
mod reaching;
mod symbol_table;

pub use call_graph::{Call, CallGraph};
pub use name_index::NameIndex;
pub use symbol_table::{Symbol, SymbolTable};
