// What a shelf says of its objects.
use cache_law::ObjectView;

/// What a lookup's scan of a shelf saw: the fresh object that ended it, the first object in grace and the first that the backend
/// may confirm, and the shelf's own marks of what becomes of the objects that it came to.
#[derive(Drop)]
pub struct Seen<M> {
    pub fresh: Option<ObjectView>,
    pub grace: Option<ObjectView>,
    pub stale: Option<ObjectView>,
    pub marks: M,
}

/// What became of an object that was to be stored.
#[derive(Clone, Copy, Debug)]
pub enum Placing {
    Stored,
    NotInTime,
    NoRoom,
    /// Memory was wanting.
    Refused,
}

/// What a lookup used: an object, whose hit is counted, or a marker, each by its number.
#[derive(Clone, Copy, Debug)]
pub enum Use {
    Nothing,
    Hit(u64),
    Marker(u64),
}
