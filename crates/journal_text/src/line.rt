// The lines of a journal.
use crate::Shown;
use cache_law::{Boot, Call};

/// What the first line of a journal says: the limits of a run in bytes, and its opening VCL.
#[derive(Drop)]
pub struct First {
    pub room: u64,
    pub history: u64,
    pub boot: Boot,
}

/// What the line of an entry says.
#[derive(Drop)]
pub struct Said {
    pub caller: u32,
    /// In milliseconds since 1970.
    pub moment: u64,
    pub call: Call,
    pub reply: Shown,
}

/// A line of a journal.
#[derive(Drop)]
pub enum Line {
    First(First),
    Entry(Said),
    /// The end of a segment that isn't the last.
    Cut,
    /// The end of the last segment.
    Close,
}
