//! The module `cookie` of VCL: a jar of cookies and the nine functions that ask and change it.
//!
//! Contract for the layer above: each function gets the jar as a text, its first argument, and answers what its tag means on
//! it (`IsMeaning` of `vmod_host`); one that changes the jar answers the new jar's text. So whoever runs VCL keeps one text for
//! a jar, the empty one at the beginning. After any list of operations the answers are those of the jar that the operations
//! make (`answers_of_the_jar`).
#![tactic(auto)]

mod asking;
mod changing;
mod jar;
mod law;
mod written;

pub use asking::{get, get_string, isset};
pub use changing::{clean, delete, filter, keep, parse, set};
pub use jar::Jar;
pub use law::answers_of_the_jar;
