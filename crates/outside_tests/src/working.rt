// One worker over a door. The settings are those of the listener (`listeners.rt`), and `most` for how many connections are
// accepted at most.
ghost use Rattle.std.specs.Prelude.{◌≡◌, ◌<◌};

use crate::listeners::listener_of;
use crate::numbering::{Numbered, Numbering};
use entrance::{Door, Quota};
use row_settings::number;
use std::alloc::{AllocError, Global};
use std::marker::Brand;
use std::sync::Wait;
use std::sync::ledger::{Blank, Ledger};
use workers::{Leave, Post, Worker, serve_worker};
use world::{AcceptedLink, FailingListener};

fn serve<R: Wait, A: Quota, B: Ledger>(
    rt: &R,
    alloc: Global,
    listener: FailingListener,
    most: u64,
    accepted: Blank,
    left: Blank,
) -> Result<String, AllocError>
    requires unused { listener.given ≡ 0 }
    requires most { most ≡ A.most }
    requires accepted { (accepted.name ≡ A.name) × (accepted.parts ≡ A.parts) }
    requires left { (left.name ≡ B.name) × (left.parts ≡ B.parts) }
    requires some { (0 < accepted.parts) × (0 < left.parts) }
{
    let (door, accepted, left) = Door::<FailingListener, A, B>::open(
        listener, most, accepted, left,
    );
    let post = Post {
        shift: 0u64,
        keeper: Vec::<Numbered<AcceptedLink>>::new(alloc),
    };
    let mut worker = Worker {
        post: Some(post),
        accepted,
        left,
        leave: None,
    };
    let leave = serve_worker(rt, &Numbering, &(), &door, &mut worker);
    match &worker.post {
        Some(post) => served_shown(alloc, &leave, post.keeper.as_slice()),
        None => format!(in alloc; "no post"),
    }
}

fn served_shown(
    alloc: Global,
    leave: &Result<Leave, AllocError>,
    kept: &[Numbered<AcceptedLink>],
) -> Result<String, AllocError> {
    let mut told = Vec::new(alloc);
    let mut took = Vec::new(alloc);
    for one in kept {
        told.push(&one.told)?;
        took.push(one.link.took().to_vec(alloc)?)?;
    }
    format!(in alloc; "{leave:?} {told:?} {took:?}")
}

/// How one worker leaves the door before this listener, what is told of its connections, and what their links took.
pub fn worker_shown<R: Wait>(rt: &R, alloc: Global, row: &str) -> Result<String, AllocError> {
    let listener = listener_of(alloc, row)?;
    let most = number(row, "most", 0);
    serve::<R, Brand, Brand>(rt, alloc, listener, most, Blank::new(1), Blank::new(1))
}
