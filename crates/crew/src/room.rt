// Room for what a run of workers leaves.
ghost use Rattle.std.specs.Prelude.{◌≡◌, ◌≤◌, [], IfOk, vec_len, vec_capacity};

use entrance::Quota;
use std::alloc::{AllocError, Global};
use std::sync::ledger::Ledger;
use workers::{Post, Worker};

/// Empty lists, with room for so many workers.
#[derive(Drop)]
pub(crate) struct Room<H, N, A: Quota, B: Ledger> {
    pub workers: Vec<Worker<H, N, A, B>>,
    pub posts: Vec<Post<H, N>>,
    pub keepers: Vec<N>,
}

impl<H: Drop, N: Drop, A: Quota, B: Ledger> Room<H, N, A, B> {
    pub fn new(alloc: Global, workers: usize) -> Result<Room<H, N, A, B>, AllocError>
        ensures none { IfOk result (λ room. (room.workers.items ≡ []) × (room.posts.items ≡ []) × (room.keepers.items ≡ [])) }
        ensures lengths { IfOk result (λ room. (vec_len room.workers ≡ 0) × (vec_len room.posts ≡ 0) × (vec_len room.keepers ≡ 0)) }
        ensures room { IfOk result (λ room. (workers ≤ vec_capacity room.workers) × (workers ≤ vec_capacity room.posts) × (workers ≤ vec_capacity room.keepers)) }
    {
        let posts = Vec::with_capacity(alloc, workers)?;
        let keepers = Vec::with_capacity(alloc, workers)?;
        Ok(Room {
            workers: Vec::with_capacity(alloc, workers)?,
            posts,
            keepers,
        })
    }
}
