//! The states of a client's request: what follows a subroutine by its word, what is wanted where a round rests, and where
//! an answer leads.
//!
//! Contract for the layer above: `specs/Graph.antt` has one line for each arrow between the states. `leads`, `takes` and
//! `asks` are its tables; `opening` is where a round begins. How a subroutine runs is no matter of this crate: it is told
//! the word and the context that one ended with.
#![tactic(auto)]

mod asking;
mod contexts;
mod dropping;
mod finding;
mod forwarding;
mod laws;
mod leading;
mod opening;
mod round;
mod taking;

pub use asking::ask;
pub use forwarding::forward;
pub use laws::jar_lives;
pub use leading::lead;
pub use opening::open;
pub use round::{
    ClientWant, FetchKind, FoundObject, HeldFetch, KeyUse, Next, Round, State, WaitPoint,
};
pub use taking::take;
