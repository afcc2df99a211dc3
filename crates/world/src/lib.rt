//! What a server takes from its outside as a whole: connections that come in, files, and what each of its threads works with.
//!
//! Contract for the layer above: a count of faults never falls, and `Failed` comes only where the count rose in that call. An
//! accepted connection, a new listener and a new kit begin with nothing. What a world is handed back it tells in order, where
//! that can be told; what it has read and what it gave out changes none of it.
#![tactic(auto)]

mod awaited;
mod failing_listener;
mod failing_shelf;
mod failing_world;
mod file;
mod gate;
mod kit;
mod listener;
mod planned_kit;
mod reading;
mod shelf;
mod worlds;

pub use awaited::Awaited;
pub use failing_listener::{AcceptedLink, Coming, FailingListener};
pub use failing_shelf::FailingShelf;
pub use failing_world::{FailingWorld, Listening};
pub use file::{File, ShelfError};
pub use gate::{Gate, OpenGate, Place};
pub use kit::Kit;
pub use listener::Listener;
pub use planned_kit::{KitClock, PlannedKit};
pub use reading::read_file;
pub use shelf::Shelf;
pub use worlds::World;
