//! One request to a backend, and its reply.
//!
//! Contract for the layer above: `exchange` dials, converses and hangs up. What `converse` answers is told by the bytes
//! that the link gave and took: a reply only where the link took the request whole, and then the message behind the
//! interim replies. `read_reply` tells the same of all the bytes of a reply, by the same definitions (`specs/WholeReplies.antt`).
#![tactic(auto)]

mod conversing;
mod dialing;
mod interim;
mod laws;
mod limits;
mod replies;
mod whole;

pub use conversing::{answered, converse};
pub use dialing::exchange;
pub use laws::{one_answer, one_exchange};
pub use replies::is_interim;
pub use whole::read_reply;
