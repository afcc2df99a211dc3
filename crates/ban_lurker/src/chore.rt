// What the lurker takes out of a cache, and what it finds.
use crate::BanRun;
use cache_law::ObjectView;

/// A stored object that bans on objects alone wait for, to be tested on these.
#[derive(Drop)]
pub struct Chore {
    /// The object's number.
    pub object: u64,
    /// The number of the newest ban that it was tested on, or stored behind; 0 for none.
    pub mark: u64,
    /// The number of the newest ban that it is to be tested on.
    pub upto: u64,
    pub view: ObjectView,
    pub bans: BanRun,
}

/// What was found of an object, up to a ban.
#[derive(Clone, Copy, PartialEq, Eq)]
pub struct Verdict {
    /// The object's number.
    pub object: u64,
    /// The mark that it had.
    pub mark: u64,
    /// The number of the newest ban that it was tested on.
    pub upto: u64,
    /// One of the bans matches it.
    pub dead: bool,
}
