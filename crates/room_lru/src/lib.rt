//! The sizes of the members of a cache and the order in which they were used: what all take, which have to go for a new
//! one, and which are over.
//!
//! Contract for the layer above: a `RoomLru` is seen as the list of its members by their last use, the least recently
//! used first. `total` is the sum of their sizes; `least_out` gives the least number of the first of them that make room
//! for a new one; `expired` finds one that is over without a walk.
#![tactic(auto)]

mod ending;
mod front;
mod laws;
mod member;
mod room;

pub use ending::Ending;
pub use laws::one_count_makes_room;
pub use member::Member;
pub use room::RoomLru;
