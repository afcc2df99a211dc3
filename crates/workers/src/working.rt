// All workers, side by side.
ghost use Rattle.std.specs.Prelude.{◌≡◌, ◌<◌, ℕ, All, length, slice_index_or};
ghost use denote.Param.Send.{IsSync, IsSend};
ghost use Rattle.workers.specs.Working.{IsReady, HasWorked};

use crate::service::Service;
use crate::serving::serve_worker;
use crate::worker::Worker;
use entrance::{Door, Quota};
use std::sync::Wait;
use std::sync::ledger::Ledger;
use std::thread::{self, Threads};
use world::Listener;

// One worker's work, and how it left.
fn work_out<R: Wait, L: Listener, S: Service<L::Link, P>, P, A: Quota, B: Ledger>(
    rt: &R,
    service: &S,
    site: &P,
    door: &Door<L, A, B>,
    worker: &mut Worker<S::Shift, S::Keeper, A, B>,
)
    requires { IsReady (S.Ready service.now site.now) worker.old }
    ensures { HasWorked (S.Ready service.now site.now) (S.Serves service.now site.now) S.Told worker.old worker.new }
{
    let leave = serve_worker(rt, service, site, door, worker);
    worker.leave = Some(leave);
}

/// The workers work side by side, each in a thread of its own where one can be made, until each has left.
pub fn work<
    R: Threads + Wait + Sync,
    L: Listener + Send,
    S: Service<L::Link, P> + Sync,
    P: Sync,
    A: Quota + Send,
    B: Ledger + Send,
>(
    rt: &R,
    service: &S,
    site: &P,
    door: &Door<L, A, B>,
    workers: &mut [Worker<S::Shift, S::Keeper, A, B>],
)
    requires { All (IsReady (S.Ready service.now site.now)) workers.old }
    ensures { (i : ℕ) (d : _) → i < length workers.old
        → HasWorked (S.Ready service.now site.now) (S.Serves service.now site.now) S.Told (slice_index_or workers.old i d) (slice_index_or workers.new i d) }
{
    let threads = workers.len().max(1);
    thread::for_each_mut(
        rt,
        workers,
        threads,
        &|_, worker: &mut Worker<S::Shift, S::Keeper, A, B>|
            requires { IsReady (S.Ready service.now site.now) worker.now }
            ensures { HasWorked (S.Ready service.entry.now site.entry.now) (S.Serves service.entry.now site.entry.now) S.Told worker.entry.now worker.exit.now }
        { work_out(rt, service, site, door, worker) },
    );
}
