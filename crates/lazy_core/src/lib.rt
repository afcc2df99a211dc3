//! The lazy cache: its objects are found by their keys, and tested on bans later than the law does.
//!
//! Contract for the layer above: `LazyCore` is a `CacheCore` and a `LurkCore`, which it makes at the limits and under the boot
//! that it is given. Its shelf is `LazyShelf`, over the store of `lazy_store`. The end of an open round and the insertion and
//! the drop of an open fetch never want memory.
#![tactic(auto)]

mod shelf;

pub use shelf::LazyShelf;

/// The lazy cache. It implements `CacheCore` and `LurkCore`, and is made by its `make`.
pub type LazyCore = cache_frame::Framed<LazyShelf>;
