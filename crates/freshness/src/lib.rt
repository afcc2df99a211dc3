//! How long a response serves, when it is unchanged for a client, and what a confirmed one becomes.
//!
//! Contract for the layer above: each call is a function of lists of fields, stated in `specs/`: `timing_of`
//! (`specs/Timing.antt`), `is_unchanged` and `has_validator` (`specs/Validators.antt`) and `merged`
//! (`specs/Merging.antt`). All but `merge` take no memory.
#![tactic(auto)]

mod directives;
mod lifetime;
mod merging;
mod tags;
mod times;
mod validators;

pub use lifetime::timing;
pub use merging::merge;
pub use times::{Defaults, Timing};
pub use validators::{not_modified, revalidatable};
