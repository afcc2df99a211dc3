// A worker, and how it leaves.
use crate::post::Post;
use entrance::Quota;
use std::alloc::AllocError;
use std::sync::ledger::{Ledger, Share};

/// How a worker left.
#[derive(Clone, Copy, Debug, PartialEq, Eq)]
pub enum Leave {
    /// It found the door shut.
    Shut,
}

/// A worker: its post, which is out only while it serves a connection; its shares of the door's books; and how it left, once it
/// has. It keeps nothing of the connections that it has served.
#[derive(Drop)]
pub struct Worker<H, N, A: Quota, B: Ledger> {
    pub post: Option<Post<H, N>>,
    pub accepted: Share<A>,
    pub left: Share<B>,
    pub leave: Option<Result<Leave, AllocError>>,
}
