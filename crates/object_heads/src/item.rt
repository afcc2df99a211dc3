// What a member is beside its handle.
use cache_law::ObjectView;

/// An object of the cache, with what is kept of it beside.
#[derive(Drop)]
pub struct Item<P> {
    pub view: ObjectView,
    pub payload: P,
}
