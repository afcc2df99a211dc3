// What is fixed for a run.
use units::{Sequence, Text};

/// The two limits of a run, in bytes, and whether its history is kept in segments.
#[derive(Clone, Copy, Debug)]
pub struct Params {
    /// The most that the sizes of the objects in time may sum up to.
    pub room: u64,
    /// The most that the history may hold, with what is reserved for the closing of rounds and fetches.
    pub history: u64,
    /// Whether a history ends where it has taken half of its limit, before a call that would open something. What is made
    /// behind it is a history of its own.
    pub segments: bool,
}

impl Params {
    pub const DEFAULT_ROOM: u64 = 268_435_456;

    pub const DEFAULT_HISTORY: u64 = 268_435_456;
}

/// The opening VCL: its text, and the names of the backends that it declares.
#[derive(Drop)]
pub struct Boot {
    pub text: Text,
    pub backends: Sequence<Text>,
}
