//! A log of the requests that a server answered, a line for each.
//!
//! Contract for the layer above: `write_line` gives the line that `specs/Lines.antt` says of an exchange. `AccessLog` takes lines from
//! any thread and never waits for the file; a line that doesn't fit, or can't be written, is lost.
#![tactic(auto)]

mod exchange;
mod keeper;
mod line;
mod log;
mod moment;

pub use exchange::Exchange;
pub use keeper::begin_log;
pub use line::write_line;
pub use log::AccessLog;
pub use moment::write_moment;
