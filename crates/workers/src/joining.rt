// What workers leave, joined in their order.
ghost use Rattle.std.specs.Prelude.{◌≡◌, ◌+◌, ◌<◌, ◌≤◌, ◌++◌, ◌∷◌, [], IsSome, Some, All, map, sum_by, vec_len, vec_capacity};

use crate::post::Post;
use crate::worker::Worker;
use entrance::Quota;
use std::sync::ledger::{Ledger, Share};

/// What workers leave, joined in their order: their posts, and the shares of all.
#[derive(Drop)]
pub struct Joined<H, N, A: Quota, B: Ledger> {
    pub posts: Vec<Post<H, N>>,
    pub accepted: Share<A>,
    pub left: Share<B>,
}

// What one worker leaves, behind what others left.
fn join_one<H: Drop, N: Drop, A: Quota, B: Ledger>(
    worker: Worker<H, N, A, B>,
    joined: &mut Joined<H, N, A, B>,
)
    requires has { IsSome worker.post }
    requires seats { vec_len joined.old.posts < vec_capacity joined.old.posts }
    ensures posts { map Some joined.new.posts.items ≡ map Some joined.old.posts.items ++ worker.post ∷ [] }
    ensures accepted { (joined.new.accepted.amount ≡ joined.old.accepted.amount + worker.accepted.amount) × (joined.new.accepted.parts ≡ joined.old.accepted.parts + worker.accepted.parts) }
    ensures left { (joined.new.left.amount ≡ joined.old.left.amount + worker.left.amount) × (joined.new.left.parts ≡ joined.old.left.parts + worker.left.parts) }
    ensures seats { (vec_len joined.new.posts ≡ vec_len joined.old.posts + 1) × (vec_capacity joined.new.posts ≡ vec_capacity joined.old.posts) }
{
    let Worker {
        post,
        accepted,
        left,
        leave: _,
    } = worker;
    joined.accepted.merge(accepted);
    joined.left.merge(left);
    let Some(post) = post else { unreachable!() };
    joined.posts.push_reserved(post);
}

/// Takes down workers that have left, in their order: all that they leave is joined behind what was joined before. It takes no
/// memory.
pub fn disband<H: Drop, N: Drop, A: Quota, B: Ledger>(
    workers: Vec<Worker<H, N, A, B>>,
    joined: &mut Joined<H, N, A, B>,
)
    requires have { All (λ worker. IsSome worker.post) workers.items }
    requires seats { vec_len joined.old.posts + vec_len workers ≤ vec_capacity joined.old.posts }
    ensures posts { map Some joined.new.posts.items ≡ map Some joined.old.posts.items ++ map (λ worker. worker.post) workers.items }
    ensures accepted { joined.new.accepted.amount ≡ joined.old.accepted.amount + sum_by (λ worker. worker.accepted.amount) workers.items }
    ensures accepted_parts { joined.new.accepted.parts ≡ joined.old.accepted.parts + sum_by (λ worker. worker.accepted.parts) workers.items }
    ensures left { joined.new.left.amount ≡ joined.old.left.amount + sum_by (λ worker. worker.left.amount) workers.items }
    ensures left_parts { joined.new.left.parts ≡ joined.old.left.parts + sum_by (λ worker. worker.left.parts) workers.items }
    ensures count { vec_len joined.new.posts ≡ vec_len joined.old.posts + vec_len workers }
{
    for worker in workers {
        join_one(worker, joined);
    }
}
