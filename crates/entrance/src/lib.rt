//! The entrance of a server: connections are accepted under one lock, each by one worker, and handed back at the end.
//!
//! Contract for the layer above: a worker that asks at the door gets a connection that was just accepted, or learns that the
//! door is shut. Each worker counts in shares of two books what it got and that it found the door shut. Once the door is closed
//! the totals of both books are known, with why no more connections were accepted (`specs/Shutting.antt`). There are never more
//! than the run's number of them. That a connection comes is not promised.
#![tactic(auto)]

mod accepting;
mod door;
mod quota;
mod remains;

pub use door::Door;
pub use quota::Quota;
pub use remains::{Reason, Remains};
