//! The desk of a cache: all of its state but bans and objects.
//!
//! Contract for the layer above: a `Desk` has the moment, the numbers, the rounds, the fetches, the VCLs, the counters and the
//! forced healths of the law's state (`specs/Desk.antt`), and answers the calls that concern these alone as the law does,
//! whatever a shelf has beside it (`specs/Answers.antt`). A call that memory is wanting for leaves it as it was.
#![tactic(auto)]

mod answer;
mod desk;
mod picking;
mod rounds;
mod vcls;

pub use answer::Answer;
pub use desk::Desk;
pub use rounds::least_of;
