//! The health of probed backends: windows of the latest results, and a board of them.
//!
//! Contract for the layer above: a `Window` is seen as the results that count and how many of them are to be good; after any
//! results it is what its definition says of all of them (`window_of_all`). A `Board` has a window for each probe, tells the
//! health that a result brings, and keeps which backends are forced. No call but `Board::of` takes memory.
#![tactic(auto)]

mod board;
mod laws;
mod window;

pub use board::{Board, Watched};
pub use laws::window_of_all;
pub use window::{Window, WindowError};
