//! Sessions: recorded texts of what clients ask and backends reply, line by line, that a replay plays.
//!
//! Contract for the layer above: `read` gives the one session that a text is, or the one fault that it has,
//! with its line and kind, as the definitions in `specs/` say; and exactly one of the two stands for each text. `generate` makes
//! the session of a number, which is within a session's limit.
#![tactic(auto)]

mod command;
mod generated;
mod laws;
mod lines;
mod place;
mod reader;
mod reading;
mod session;

pub use generated::{generate, generated_is_short};
pub use laws::one_meaning;
pub use reader::read;
pub use session::{FaultKind, Line, NumberedLine, Session, SessionError};

/// A session has at most so many bytes.
pub const SESSION_LIMIT: usize = 67_108_864;

/// The greatest moment, in milliseconds since 1970: the last of the year 9999.
pub const MOMENT_LIMIT: u64 = 253_402_300_799_999;
