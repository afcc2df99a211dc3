//! A client's connection: its requests, one behind another, each answered before the next is read.
//!
//! Contract for the layer above: `serve` reads requests from a link and hands each to a `Responder`. What the link gave is
//! these requests, in order; what it took is what the responder sent for them, in order, and then the text of the status
//! 400 where what came is no request. `specs/Serving.antt` says how each ending comes; `one_reading` and `every_request`
//! are the laws that the bytes have no other requests.
#![tactic(auto)]

mod ended;
mod laws;
mod refusing;
mod requests;
mod responder;
mod serving;

pub use ended::{Answered, Ended};
pub use laws::{each_answered, every_request, one_reading};
pub use requests::read_request;
pub use responder::Responder;
pub use serving::serve;
