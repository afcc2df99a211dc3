// What a cache holds open.
use units::{Sequence, Text};

/// A fetch that is under way: its number, who makes it, and the key of the lookup that opened it.
#[derive(Drop)]
pub struct OpenFetch {
    pub token: u64,
    pub caller: u32,
    pub key: Sequence<Text>,
}

/// A round that is under way, under the VCL of this number.
#[derive(Clone, Copy, Debug)]
pub struct OpenRound {
    pub caller: u32,
    pub vcl: u32,
    /// The token that its newest lookup was told to wait for, if it was.
    pub waits: Option<u64>,
}
