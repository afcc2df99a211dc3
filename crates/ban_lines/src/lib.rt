//! What the lines of a list of bans do: which bans they show, and which of them a newer one completes.
//!
//! Contract for the layer above: `shows` and `are_completed` are tests of `cache_law` on a list of bans. By them, and by which bans
//! were issued and which wait for objects, it is told whether the law allows a list (`ShowsBans`).
#![tactic(auto)]

mod equality;
mod lines;

pub use lines::{are_completed, shows};
