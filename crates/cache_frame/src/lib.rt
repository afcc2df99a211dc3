//! What every cache has in common, whatever it keeps its objects in: a cache is a desk and a shelf.
//!
//! Contract for the layer above: on the desk are the rounds, the fetches, the VCLs, the counters and the healths, with the
//! calls that concern these alone. A `Shelf` has the objects and the bans, and stands for those of the law. `Framed` puts a
//! shelf beside a desk, and is a `CacheCore` and a `LurkCore` for any shelf that meets the clauses of its trait.
#![tactic(auto)]

mod calls;
mod finding;
mod framed;
mod listing;
mod seen;
mod shelf;

pub use framed::{Answering, Framed};
pub use listing::ListingShelf;
pub use seen::{Placing, Seen, Use};
pub use shelf::Shelf;
