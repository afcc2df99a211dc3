//! The turn lock: threads take turns with one value that keeps a history, in the order of the tickets that they draw.
//!
//! Contract for the layer above: each caller has a pass, which knows the history that it has seen. A turn gives the
//! value, whose history begins with all that the pass has seen, with nothing more by its own number; the turn is given
//! back with the history as it was or with one entry more of that number. Passes are split off under numbers of their
//! own, and joined again. What a pass knows is defined in `specs/Knowledge.antt`, the rule of the lock in
//! `specs/Turns.antt`. That a turn comes is not promised.
#![tactic(auto)]

mod bell;
mod chronicle;
mod handles;
mod knowledge;
mod lock;
mod rule;
mod steps;
mod waits;

pub use chronicle::Chronicle;
pub use handles::{Held, Pass, Returned};
pub use knowledge::{Ended, Known, Stage, View};
pub use lock::Turnstile;
