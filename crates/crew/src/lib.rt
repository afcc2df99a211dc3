//! Workers over one shared cache: their hiring, their work, and their taking down.
//!
//! Contract for the layer above: `serve_all` opens a cache, hires workers under numbers of their own, has them serve connections at a
//! listener, and takes all down again. What comes of it is one legal history; the world has the links and the kits back, worker by
//! worker, and what is told of the connections stands in the same order (`specs/Running.antt`). Each place of the history is that of one
//! call that was made for one connection. What a connection's serving is the crate knows by the trait `Host` alone.
#![tactic(auto)]

mod hiring;
mod host;
mod job;
mod rejoining;
mod room;
mod running;
mod working;

pub use host::Host;
pub use job::{Job, Sign};
pub use running::{Outcome, serve_all};
