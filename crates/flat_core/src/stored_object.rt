// An object in memory.
use cache_law::ObjectView;

/// An object in memory, the place in the history of the entry that used it last, and how many bans had been issued when it
/// was last tested on all of them.
#[derive(Drop)]
pub(crate) struct StoredObject {
    pub view: ObjectView,
    pub used: u64,
    pub tested: u64,
}

/// What becomes of an object.
#[derive(Clone, Copy, Debug)]
pub enum Fate {
    Stays,
    /// It was tested on all bans that there are.
    Tested,
    Goes,
}
