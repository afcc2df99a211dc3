//! The bans of a cache that tests its objects on them later: which are kept, which a later equal one completes, and how
//! many objects have still to be tested on each.
//!
//! Contract for the layer above: a `BanList` is seen by `specs/Bans.antt` as the list of its lines, the newest first, with
//! how many objects have their place and their mark at each. A new ban comes first under the next number and completes
//! the bans that equal it; `cut` takes the oldest lines that nothing needs.
#![tactic(auto)]

mod counts;
mod keys;
mod laws;
mod line;
mod list;

pub use laws::counts_are_of_objects;
pub use line::Line;
pub use list::{BanList, Stand};
