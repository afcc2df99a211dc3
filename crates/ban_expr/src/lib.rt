//! Bans as operators write them: how words are read as a ban, and when a ban matches.
//!
//! Contract for the layer above: `read` answers the one ban that its words say by `specs/Reading.antt`, or what is wrong
//! with the first condition that is none; `test` answers what the law of the cache says of a ban's conditions
//! (`specs/Bans.antt` of `cache_law`).
#![tactic(auto)]

mod clauses;
mod error;
mod laws;
mod matching;
mod operators;
mod patterns;
mod plans;
mod prepared;
mod reading;
mod subjects;

pub use error::BanError;
pub use laws::one_ban;
pub use matching::{object_only, test};
pub use prepared::{Prepared, prepare};
pub use reading::{MAX_CONDITIONS, read};
