//! The audit of the journal that a source gives, and what is written of it.
//!
//! Contract for the layer above: `run_audit` reads the source to its end, and writes `legal N` of the journal of a lawful history, N being the
//! number of its entries, or `line L kind K` of bytes that are none. The answer's status says which, or what hindered it.
#![tactic(auto)]

mod outcome;
mod reading;
mod run;
mod texts;
mod wording;

pub use outcome::{Audited, Note, Status};
pub use run::run_audit;
pub use wording::words_of;
