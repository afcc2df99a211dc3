//! Directors of VCL: which member of a list of backends an exchange goes to.
//!
//! Contract for the layer above: `choose` gives the one member that the kind of director, its counter and
//! its word determine, and none exactly where no member is healthy; `key_word` is the word of a key.
#![tactic(auto)]

mod director;
mod key;
mod target;

pub use director::{DirectorKind, Members, choose, one_choice};
pub use key::key_word;
pub use target::{Member, Target};
