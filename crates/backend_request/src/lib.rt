//! Requests to backends and what is made of their replies: which fields go on, what is asked of a backend, what a reply is
//! received as, how long it serves, and the response that is stored. What VCL does between these isn't in here.
//!
//! Contract for the layer above: each call is a function of `specs/` on heads and lists of fields (`Passed.antt`, `Asked.antt`,
//! `Received.antt`, `Timed.antt`, `Stored.antt`). `asked_as_meant` says what a backend reads of a request.
#![tactic(auto)]

mod asking;
mod laws;
mod passing;
mod purpose;
mod receiving;
mod storing;
mod times;

pub use asking::{finish_request, open_request, unconditional};
pub use laws::{asked_as_meant, received_as_read};
pub use passing::{pass_reply, pass_request};
pub use purpose::Purpose;
pub use receiving::{Received, receive};
pub use storing::{make_marker, make_response};
pub use times::{DEFAULTS, error_head, timed};
