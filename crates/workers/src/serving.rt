// One worker's work.
ghost use Rattle.std.specs.Prelude.{◌≡◌, ◌+◌, ◌<◌, Option, Some, IsSomeAnd, IfSome, IfNone, OnOk, OnErr};
ghost use Rattle.entrance.specs.Arriving.{IsNew};
ghost use Rattle.wire.specs.Telling.{told_by};
ghost use Rattle.workers.specs.Serving.{Works};

use crate::post::Post;
use crate::service::Service;
use crate::worker::{Leave, Worker};
use entrance::{Door, Quota};
use std::alloc::AllocError;
use std::sync::Wait;
use std::sync::ledger::{Ledger, Share};
use world::Listener;

// Asks at the door, and serves the connection that comes. Without one, how the worker leaves.
fn attend<R: Wait, L: Listener, S: Service<L::Link, P>, P, A: Quota, B: Ledger>(
    rt: &R,
    service: &S,
    site: &P,
    door: &Door<L, A, B>,
    post: Post<S::Shift, S::Keeper>,
    accepted: &mut Share<A>,
    left: &mut Share<B>,
) -> (Post<S::Shift, S::Keeper>, Option<Result<Leave, AllocError>>)
    requires parts { (0 < accepted.old.parts) × (0 < left.old.parts) }
    requires ready { S.Ready service.now site.now post.shift }
    ensures ready { S.Ready service.now site.now result.0.shift }
    ensures works { Works (S.Serves service.now site.now) S.Told (Some post) (Some result.0) accepted.old.amount accepted.new.amount }
    ensures shut { IfSome result.1 (λ leave. OnOk leave (left.new.amount ≡ left.old.amount + 1)) }
    ensures wanting { IfSome result.1 (λ leave. OnErr leave (left.new.amount ≡ left.old.amount)) }
    ensures goes_on { IfNone result.1 (left.new.amount ≡ left.old.amount) }
    ensures parts { (accepted.new.parts ≡ accepted.old.parts) × (left.new.parts ≡ left.old.parts) }
{
    let Post { shift, mut keeper } = post;
    if service.make_room(&mut keeper).is_err() {
        door.give_up(rt);
        return (Post { shift, keeper }, Some(Err(AllocError)));
    }
    match door.enter(rt, accepted, left) {
        Some(one) => {
            let (link, address) = one;
            let post = Post { shift, keeper };
            (service.serve(rt, site, post, link, address), None)
        }
        None => (Post { shift, keeper }, Some(Ok(Leave::Shut))),
    }
}

// The same with the worker's own post and shares.
fn go_on<R: Wait, L: Listener, S: Service<L::Link, P>, P, A: Quota, B: Ledger>(
    rt: &R,
    service: &S,
    site: &P,
    door: &Door<L, A, B>,
    worker: &mut Worker<S::Shift, S::Keeper, A, B>,
) -> Option<Result<Leave, AllocError>>
    requires parts { (0 < worker.old.accepted.parts) × (0 < worker.old.left.parts) }
    requires ready { IsSomeAnd worker.old.post (λ post. S.Ready service.now site.now post.shift) }
    ensures ready { IsSomeAnd worker.new.post (λ post. S.Ready service.now site.now post.shift) }
    ensures works { Works (S.Serves service.now site.now) S.Told worker.old.post worker.new.post worker.old.accepted.amount worker.new.accepted.amount }
    ensures shut { IfSome result (λ leave. OnOk leave (worker.new.left.amount ≡ worker.old.left.amount + 1)) }
    ensures wanting { IfSome result (λ leave. OnErr leave (worker.new.left.amount ≡ worker.old.left.amount)) }
    ensures goes_on { IfNone result (worker.new.left.amount ≡ worker.old.left.amount) }
    ensures parts { (worker.new.accepted.parts ≡ worker.old.accepted.parts) × (worker.new.left.parts ≡ worker.old.left.parts) }
    ensures leave { worker.new.leave ≡ worker.old.leave }
{
    let Some(post) = worker.post.take() else {
        unreachable!()
    };
    let (post, leave) = attend(
        rt,
        service,
        site,
        door,
        post,
        &mut worker.accepted,
        &mut worker.left,
    );
    worker.post = Some(post);
    leave
}

/// One worker's work: it takes connections at the door and serves each, until it finds the door shut or has no memory for another
/// one. It may wait for good.
pub fn serve_worker<R: Wait, L: Listener, S: Service<L::Link, P>, P, A: Quota, B: Ledger>(
    rt: &R,
    service: &S,
    site: &P,
    door: &Door<L, A, B>,
    worker: &mut Worker<S::Shift, S::Keeper, A, B>,
) -> Result<Leave, AllocError>
    requires parts { (0 < worker.old.accepted.parts) × (0 < worker.old.left.parts) }
    requires ready { IsSomeAnd worker.old.post (λ post. S.Ready service.now site.now post.shift) }
    ensures ready { IsSomeAnd worker.new.post (λ post. S.Ready service.now site.now post.shift) }
    ensures works { Works (S.Serves service.now site.now) S.Told worker.old.post worker.new.post worker.old.accepted.amount worker.new.accepted.amount }
    ensures shut { OnOk result (worker.new.left.amount ≡ worker.old.left.amount + 1) }
    ensures wanting { OnErr result (worker.new.left.amount ≡ worker.old.left.amount) }
    ensures parts { (worker.new.accepted.parts ≡ worker.old.accepted.parts) × (worker.new.left.parts ≡ worker.old.left.parts) }
    ensures leave { worker.new.leave ≡ worker.old.leave }
{
    'connections: for _ in rt.forever() {
        if let Some(leave) = go_on(rt, service, site, door, worker) {
            return leave;
        }
    }
    unreachable!()
}
