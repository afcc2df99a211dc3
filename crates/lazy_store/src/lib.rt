//! The store of the lazy cache: objects and bans in containers that are found by key, by xkey, by use and by end.
//!
//! Contract for the layer above: a `Store` is seen as what a lazy cache keeps (`Lazy` of `lazy_law`), and each of its methods
//! is said in the words that `lazy_law` has of these lists.
#![tactic(auto)]

mod ends;
mod errands;
mod finding;
mod living;
mod marking;
mod numbering;
mod placement;
mod plan;
mod purging;
mod putting;
mod soft_purging;
mod store;
mod testing;
mod tidying;
mod waiting;

pub use placement::Placement;
pub use store::Store;
