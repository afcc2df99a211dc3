// What becomes of the objects that a lookup came to.
use units::Sequence;

/// The numbers of objects that a lookup came to.
#[derive(Drop)]
pub struct Marks {
    /// Those that a ban matched: they go.
    pub gone: Sequence<u64>,
    /// Those that were tested on all bans, of which none matched.
    pub tested: Sequence<u64>,
}
