//! Messages that are read from a connection, piece by piece.
//!
//! Contract for the layer above: the input of a call is the bytes that were held and those that the link gave in that
//! call. `read_head` and `read_body` answer what the crates of heads and bodies say of the whole input, however it was
//! cut, and hold what stands behind the part that they read.
#![tactic(auto)]

mod bodies;
mod extent;
mod heads;
mod intake;
mod stop;
mod watch;

pub use bodies::read_body;
pub use extent::{Extent, MAX_REQUEST_BODY, RequestGauge};
pub use heads::{Head, read_head};
pub use intake::{Intake, fill};
pub use stop::Stop;
