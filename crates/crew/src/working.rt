// Workers who work until each has left, and a job beside them.
ghost use Rattle.std.specs.Prelude.{◌≡◌, All, length, vec_len};
ghost use Rattle.std.specs.List.{AllZip};
ghost use denote.Param.Send.{IsSend, IsSync};
ghost use Rattle.turnstile.specs.Handles.{known};
ghost use Rattle.shared_cache.specs.Passes.{IsPassOf};
ghost use Rattle.workers.specs.Working.{IsReady, HasWorked};
ghost use Rattle.crew.specs.Besides.{Becomes};
ghost use Rattle.crew.specs.Calls.{HasCalled};

use crate::hiring::LinkOf;
use crate::host::Host;
use crate::job::{Job, Sign};
use cache_law::CacheCore;
use entrance::{Door, Quota};
use shared_cache::{CachePass, SharedCache};
use std::alloc::Global;
use std::sync::Wait;
use std::sync::ledger::Ledger;
use std::thread::{self, Threads};
use workers::{Service, Worker, work};
use world::{Listener, World};

/// Workers, the first pass of their cache, and what a job beside them left.
#[derive(Drop)]
pub(crate) struct Worked<H, N, A: Quota, B: Ledger, D> {
    pub workers: Vec<Worker<H, N, A, B>>,
    pub pass: CachePass,
    pub done: Option<D>,
}

// All workers work side by side, until each has left.
fn work_together<
    R: Threads + Wait + Sync,
    P: Sync,
    L: Listener + Send,
    S: Service<L::Link, P> + Sync,
    A: Quota + Send,
    B: Ledger + Send,
>(
    rt: &R,
    service: &S,
    site: &P,
    door: &Door<L, A, B>,
    workers: &mut Vec<Worker<S::Shift, S::Keeper, A, B>>,
)
    requires { All (IsReady (S.Ready service.now site.now)) workers.old.items }
    ensures worked { AllZip (HasWorked (S.Ready service.now site.now) (S.Serves service.now site.now) S.Told) workers.old.items workers.new.items }
    ensures count { (vec_len workers.new ≡ vec_len workers.old) × (length workers.new.items ≡ vec_len workers.old) }
{
    work(rt, service, site, door, workers.as_mut_slice());
}

// The same, and once the last has left the sign is raised.
fn work_and_raise<
    R: Threads + Wait + Sync,
    P: Sync,
    L: Listener + Send,
    S: Service<L::Link, P> + Sync,
    A: Quota + Send,
    B: Ledger + Send,
    X: Sign,
>(
    rt: &R,
    service: &S,
    site: &P,
    door: &Door<L, A, B>,
    workers: Vec<Worker<S::Shift, S::Keeper, A, B>>,
    sign: &X,
) -> Vec<Worker<S::Shift, S::Keeper, A, B>>
    requires { All (IsReady (S.Ready service.now site.now)) workers.items }
    ensures worked { AllZip (HasWorked (S.Ready service.now site.now) (S.Serves service.now site.now) S.Told) workers.items result.items }
    ensures count { (vec_len result ≡ vec_len workers) × (length result.items ≡ vec_len workers) }
{
    let mut workers = workers;
    work_together::<R, P, L, S, A, B>(rt, service, site, door, &mut workers);
    sign.raise();
    workers
}

// The job is done, in a thread of its own where one can be made, beside workers who work until each has left. Where none can be made
// the workers come first, since they leave by themselves. Their site is the job's cache.
fn work_beside<
    R: Threads + Wait + Sync,
    C: CacheCore + Send,
    P: Sync,
    L: Listener + Send,
    S: Service<L::Link, P> + Sync,
    A: Quota + Send,
    B: Ledger + Send,
    J: Job<C> + Send,
    X: Sign,
>(
    rt: &R,
    alloc: Global,
    service: &S,
    site: &P,
    cache: &SharedCache<C>,
    door: &Door<L, A, B>,
    workers: Vec<Worker<S::Shift, S::Keeper, A, B>>,
    pass: CachePass,
    job: J,
    sign: &X,
) -> ((CachePass, J::Done), Vec<Worker<S::Shift, S::Keeper, A, B>>)
where
    J::Done: Send,
    requires ready { All (IsReady (S.Ready service.now site.now)) workers.items }
    requires pass { IsPassOf cache.now pass }
    ensures worked { AllZip (HasWorked (S.Ready service.now site.now) (S.Serves service.now site.now) S.Told) workers.items result.1.items }
    ensures count { (vec_len result.1 ≡ vec_len workers) × (length result.1.items ≡ vec_len workers) }
    ensures pass { IsPassOf cache.now result.0.0 }
    ensures called { HasCalled (known pass) (known result.0.0) (J.places result.0.1) }
    ensures did { J.Did job result.0.1 (known pass) (known result.0.0) }
{
    thread::join(
        rt,
        move || -> (CachePass, J::Done)
            requires { IsPassOf cache.now pass }
            ensures { IsPassOf cache.entry.now result.0 × HasCalled (known pass) (known result.0) (J.places result.1)
                × J.Did job result.1 (known pass) (known result.0) }
        { job.work(rt, alloc, cache, pass) },
        move || -> Vec<Worker<S::Shift, S::Keeper, A, B>>
            requires { IsSync R.row × IsSync P.row × IsSend L.row × IsSync S.row × IsSend A.row × IsSend B.row
                × All (IsReady (S.Ready service.now site.now)) workers.items }
            ensures { AllZip (HasWorked (S.Ready service.entry.now site.entry.now) (S.Serves service.entry.now site.entry.now) S.Told) workers.items result.items
                × (vec_len result ≡ vec_len workers) × (length result.items ≡ vec_len workers) }
        { work_and_raise::<R, P, L, S, A, B, X>(rt, service, site, door, workers, sign) },
    )
}

/// All workers of a host work side by side, until each has left, and the job is done beside them by the first pass, if there is one.
pub(crate) fn work_all<
    R: Threads + Wait + Sync,
    C: CacheCore + Send,
    W: World,
    H: Host<C, W::Dialer, W::Clock, LinkOf<W>> + Sync,
    A: Quota + Send,
    B: Ledger + Send,
    J: Job<C> + Send,
    X: Sign + Sync,
>(
    rt: &R,
    alloc: Global,
    host: &H,
    cache: &SharedCache<C>,
    door: &Door<W::Listener, A, B>,
    workers: Vec<Worker<H::Shift, H::Keeper, A, B>>,
    pass: CachePass,
    job: Option<J>,
    sign: &X,
) -> Worked<H::Shift, H::Keeper, A, B, J::Done>
where
    W::Listener: Send,
    J::Done: Send,
    requires ready { All (IsReady (H.Ready host.now cache.now)) workers.items }
    requires pass { IsPassOf cache.now pass }
    ensures worked { AllZip (HasWorked (H.Ready host.now cache.now) (H.Serves host.now cache.now) H.Told) workers.items result.workers.items }
    ensures count { (vec_len result.workers ≡ vec_len workers) × (length result.workers.items ≡ vec_len workers) }
    ensures pass { IsPassOf cache.now result.pass }
    ensures becomes { Becomes J.places J.Did job result.done (known pass) (known result.pass) }
{
    match job {
        Some(job) => {
            let ((pass, done), workers) = work_beside::<
                R,
                C,
                SharedCache<C>,
                W::Listener,
                H,
                A,
                B,
                J,
                X,
            >(
                rt, alloc, host, cache, cache, door, workers, pass, job, sign,
            );
            Worked {
                workers,
                pass,
                done: Some(done),
            }
        }
        None => {
            let mut workers = workers;
            work_together::<R, SharedCache<C>, W::Listener, H, A, B>(
                rt,
                host,
                cache,
                door,
                &mut workers,
            );
            Worked {
                workers,
                pass,
                done: None,
            }
        }
    }
}
