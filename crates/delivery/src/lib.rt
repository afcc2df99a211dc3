//! Responses to clients: what VCL begins with, what is sent of what it leaves, and the responses that no VCL has a part in.
//!
//! Contract for the layer above: each call is a function of `specs/` on heads and lists of fields (`Opened.antt`,
//! `Finished.antt`, `Pages.antt`). What `finish` gives keeps each part in its class, and `sent_as_meant` says what a client
//! reads where it is sent.
#![tactic(auto)]

mod finishing;
mod laws;
mod opening;
mod pages;
mod printing;

pub use finishing::{Delivery, ResponseBody, finish};
pub use laws::{opened_as_read, sent_as_meant};
pub use opening::{Numbers, age_at, open_delivery, open_synthetic};
pub use pages::{Failure, failure_page};
pub use printing::{closes, print_delivery};
