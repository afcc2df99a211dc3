// What is left of a door that was closed.
use crate::quota::Quota;
use std::sync::ledger::{Ledger, Total};
use world::Listener;

/// Why no more connections were accepted.
#[derive(Clone, Copy, Debug, PartialEq, Eq)]
pub enum Reason {
    /// As many were accepted as the run accepts.
    Full,
    /// The listener said that no connection comes any more.
    Ended,
    /// A call of the listener failed.
    Failed,
    /// A worker had no memory for another one.
    NoMemory,
}

/// The listener, how many connections were accepted, and the closed books of these and of the workers that found the door shut.
/// Without a reason the door was open to the last.
#[derive(Drop)]
pub struct Remains<L: Listener, A: Quota, B: Ledger> {
    pub listener: L,
    pub count: u64,
    pub accepted: Total<A>,
    pub left: Total<B>,
    pub reason: Option<Reason>,
}
