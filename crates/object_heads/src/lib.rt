//! The objects of a cache, each with its handle and a payload: found by key, without a walk over those of other keys, and
//! by number.
//!
//! Contract for the layer above: a `Heads` is seen as the list of its members, the newest first, each a handle with its
//! item. A new member comes first, one that is taken leaves the others in order, `find` gives the handles of the filter
//! of the list by key, and `handle_of` the handle of the member whose object has a number.
#![tactic(auto)]

mod by_name;
mod by_number;
mod heads;
mod item;
mod name;
mod places;

pub use heads::Heads;
pub use item::Item;
