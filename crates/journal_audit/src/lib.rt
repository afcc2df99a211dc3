//! The audit of a journal's text, line by line, over whatever follows its history.
//!
//! Contract for the layer above: an `Auditor` is fed a text in pieces and tells at its end what the text is as a journal: legal, with
//! the numbers of its entries and its segments, or bad at this line for this least kind of fault; `audit` does so with a whole text.
//! What an entry may follow is left to a `Follower`, whose trait says what it owes.
#![tactic(auto)]

mod auditor;
mod course;
mod fault;
mod follower;
mod going;
mod phase;

pub use auditor::{Auditor, Finding, audit};
pub use fault::{Expected, Fault};
pub use follower::Follower;
