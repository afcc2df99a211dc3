//! Plays a session: a schedule of rounds over a cache, and the transcript that it writes.
//!
//! Contract for the layer above: `run_session` writes the transcript of the session over the history that
//! it hands out, and says by its refusal what else ended it, and where. The transcript, and what each
//! refusal means, are relations in `specs/` between the session's events, a history and a text.
#![tactic(auto)]

mod boxed;
mod console;
mod event;
mod exchanges;
mod laws;
mod led;
mod lines;
mod pieces;
mod policy;
mod rounds;
mod schedule;
mod script;
mod session;
mod turn;
mod waking;
mod whole;

pub use boxed::Boxed;
pub use console::Instruction;
pub use event::{Aside, Event, Heard, NumberedEvent, Script};
pub use laws::{console_is_heard, one_ending, one_history, one_instruction, one_session, one_text};
pub use led::Led;
pub use policy::{Given, Message, Policy, Request, Want};
pub use session::{Played, ReplayError, Replayed, play_session, run_session};
pub use turn::Turn;
