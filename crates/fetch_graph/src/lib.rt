//! The states of a fetch: what follows a subroutine by its word, what is wanted where a fetch rests, and where an answer
//! leads.
//!
//! Contract for the layer above: `specs/Graph.antt` has one line for each arrow between the states. `leads`, `takes`
//! (`specs/Answers.antt`) and `asks` (`specs/Wants.antt`) are its tables; `opening` is where a fetch begins. How a subroutine
//! runs is no matter of this crate: it is told the word and the context that one ended with.
#![tactic(auto)]

mod answering;
mod asking;
mod contexts;
mod fetch;
mod keeping;
mod laws;
mod leading;
mod opening;

pub use answering::take;
pub use asking::ask;
pub use fetch::{Arrived, Fetch, FetchWant, Insertion, Next, State, StoreAs, WaitPoint};
pub use laws::jar_lives;
pub use leading::{MAX_RETRIES, abandon, lead};
pub use opening::open;
