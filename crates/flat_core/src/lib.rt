//! The plain cache: each list of the law's state is a list in memory, and each step is written down.
//!
//! Contract for the layer above: `FlatCore` is a `CacheCore` and a `LurkCore`, which it makes at the limits and under the
//! boot that it is given. Its shelf is `FlatShelf`. A step scans the objects, the open rounds and the open fetches, never the
//! history. The end of an open round and the insertion and the drop of an open fetch never want memory.
#![tactic(auto)]

mod banning;
mod listing;
mod lists;
mod matching;
mod purging;
mod room;
mod scan;
mod shelf;
mod stored_ban;
mod stored_object;

pub use shelf::FlatShelf;

/// The plain cache. It implements `CacheCore`, and is made by its `make`.
pub type FlatCore = cache_frame::Framed<FlatShelf>;
