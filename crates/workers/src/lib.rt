//! Workers who serve connections side by side, and what they leave.
//!
//! Contract for the layer above: a worker takes connections at the door, one behind another, and serves and shuts each, until
//! it finds the door shut or has no memory for another one. What it leaves are the connections and, in the same order, what is
//! told of each; they are as many as its share of the door's book says. Each has been served as its service says, from the shift
//! that the connection before it left (`specs/Serving.antt`). `work` has all workers work side by side, and what they leave is
//! joined in their order. That a connection comes, or that a worker leaves, is not promised.
#![tactic(auto)]

mod joining;
mod post;
mod service;
mod serving;
mod worker;
mod working;

pub use joining::{Joined, disband};
pub use post::Post;
pub use service::Service;
pub use serving::serve_worker;
pub use worker::{Leave, Worker};
pub use working::work;
