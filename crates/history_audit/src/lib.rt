//! The audit of a journal: a cache is stepped along its history.
//!
//! Contract for the layer above: `Following` is a `Follower` of `journal_audit` over the plain cache, so that `Auditor<Following>`,
//! which is fed pieces, and `audit`, which is handed the whole text, tell what a text is as a journal: that of a lawful history, or
//! bad at its line for the least kind of fault.
#![tactic(auto)]

mod answering;
mod auditing;
mod following;
mod listing;
mod saying;
mod stepping;

pub use auditing::{HistoryAuditor, audit};
pub use following::Following;
