// Workers over a cache, from their hiring to their taking down.
ghost use Rattle.std.specs.Prelude.{◌≡◌, ◌+◌, ◌≤◌, ◌++◌, List, [], Some, IfSome, IfNone, length, vec_len, vec_capacity};
ghost use Rattle.cache_law.specs.declared.call.Entry.{Entry as HistoryEntry};
ghost use Rattle.cache_law.specs.Beginning.{Beginning};
ghost use Rattle.cache_law.specs.History.{Legal};
ghost use Rattle.turnstile.specs.Handles.{known};
ghost use Rattle.turnstile.specs.Knowledge.{Meets, mine, opened};
ghost use Rattle.shared_cache.specs.Passes.{IsPassOf};
ghost use Rattle.shared_cache.specs.Sharing.{IsKeptWhole, caller_of};
ghost use Rattle.wire.specs.Calls.{joined_count};
ghost use Rattle.crew.specs.Besides.{BecomesFirst, IsDone, places_beside};
ghost use Rattle.crew.specs.Opening.{CanBegin, IsFirst};
ghost use Rattle.crew.specs.Hiring.{IsUnused};
ghost use Rattle.crew.specs.Leaving.{HaveWorked};
ghost use Rattle.crew.specs.Running.{Ran, Stopped};

use crate::hiring::{LinkOf, hire};
use crate::host::Host;
use crate::job::{Job, Sign};
use crate::rejoining::rejoin;
use crate::room::Room;
use crate::working::{Worked, work_all};
use cache_law::{CacheCore, Entry};
use entrance::{Door, Quota, Reason, Remains};
use shared_cache::{CachePass, SharedCache};
use std::alloc::Global;
use std::marker::Brand;
use std::sync::Wait;
use std::sync::ledger::{Blank, Ledger, Share};
use std::thread::Threads;
use units::Sequence;
use workers::{Joined, Worker, disband};
use world::World;

/// What a run of workers comes to: the history of the cache, the workers' keepers, what a job beside them left, how many connections
/// were served, and why no more were accepted.
#[derive(Drop)]
pub struct Outcome<N, D> {
    pub history: Sequence<Entry>,
    pub keepers: Vec<N>,
    pub done: Option<D>,
    pub connections: u64,
    pub reason: Reason,
}

// Workers are hired, and work until each has left, and the job is done beside them.
fn employ<
    R: Threads + Wait + Sync,
    C: CacheCore + Send,
    W: World,
    H: Host<C, W::Dialer, W::Clock, LinkOf<W>> + Sync,
    A: Quota + Send,
    B: Ledger + Send,
    J: Job<C> + Send,
    X: Sign + Sync,
>(
    rt: &R,
    alloc: Global,
    world: &mut W,
    host: &H,
    cache: &SharedCache<C>,
    root: CachePass,
    door: &Door<W::Listener, A, B>,
    count: u32,
    accepted: &mut Share<A>,
    left: &mut Share<B>,
    workers: Vec<Worker<H::Shift, H::Keeper, A, B>>,
    job: Option<J>,
    sign: &X,
) -> Worked<H::Shift, H::Keeper, A, B, J::Done>
where
    W::Listener: Send,
    J::Done: Send,
    requires pass { IsPassOf cache.now root }
    requires first { IsFirst (known root) }
    requires parts { (count ≤ accepted.old.parts) × (count ≤ left.old.parts) }
    requires nothing { (accepted.old.amount ≡ 0) × (left.old.amount ≡ 0) }
    requires none { (workers.items ≡ []) × (vec_len workers ≡ 0) }
    requires room { count ≤ vec_capacity workers }
    ensures pass { IsPassOf cache.now result.pass }
    ensures have_worked { HaveWorked (IsPassOf cache.now) (IsUnused W.Dialer.talks W.Dialer.dial_faults W.Dialer.read_faults W.Dialer.write_faults W.Clock.readings W.Clock.words)
        H.pass_of H.kit_of H.Told (H.Ready host.now cache.now) (H.Serves host.now cache.now) (known result.pass) result.workers.items }
    ensures becomes { BecomesFirst J.places J.Did job result.done (known root) (known result.pass) }
    ensures parts { accepted.new.parts + vec_len result.workers ≡ accepted.old.parts }
    ensures nothing { accepted.new.amount ≡ 0 }
    ensures few { vec_len result.workers ≤ count }
    ensures count { length result.workers.items ≡ vec_len result.workers }
    ensures links { W.links world.new ≡ W.links world.old }
    ensures kept { W.kept world.new ≡ W.kept world.old }
    ensures given { W.given world.new ≡ W.given world.old }
    ensures ports { W.ports world.new ≡ W.ports world.old }
    ensures kits { W.kits world.new ≡ W.kits world.old }
    ensures files { W.files world.new ≡ W.files world.old }
    ensures listens { W.listen_faults world.new ≡ W.listen_faults world.old }
    ensures shelves { W.shelf_faults world.new ≡ W.shelf_faults world.old }
    ensures ended { W.ended world.new ≡ W.ended world.old }
{
    let (mut root, mut workers) = (root, workers);
    hire(
        alloc,
        world,
        host,
        cache,
        &mut root,
        count,
        accepted,
        left,
        &mut workers,
    );
    work_all::<R, C, W, H, A, B, J, X>(rt, alloc, host, cache, door, workers, root, job, sign)
}

// Workers who have left are taken down, and their passes are joined again: their keepers, how many connections they served, and why
// no more were accepted. What they leave goes into empty lists.
fn take_down<
    C: CacheCore,
    W: World,
    H: Host<C, W::Dialer, W::Clock, LinkOf<W>>,
    A: Quota,
    B: Ledger,
>(
    world: &mut W,
    host: &H,
    cache: &SharedCache<C>,
    root: &mut CachePass,
    door: Door<W::Listener, A, B>,
    workers: Vec<Worker<H::Shift, H::Keeper, A, B>>,
    joined: Joined<H::Shift, H::Keeper, A, B>,
    keepers: &mut Vec<H::Keeper>,
) -> (u64, Reason)
    requires pass { IsPassOf cache.now root.old }
    requires have_worked { HaveWorked (IsPassOf cache.now) (IsUnused W.Dialer.talks W.Dialer.dial_faults W.Dialer.read_faults W.Dialer.write_faults W.Clock.readings W.Clock.words)
        H.pass_of H.kit_of H.Told (H.Ready host.now cache.now) (H.Serves host.now cache.now) (known root.old) workers.items }
    requires none { (joined.posts.items ≡ []) × (keepers.old.items ≡ []) }
    requires empty { (vec_len joined.posts ≡ 0) × (vec_len keepers.old ≡ 0) × (joined.accepted.amount ≡ 0) }
    requires parts { joined.accepted.parts + vec_len workers ≡ A.parts }
    requires count { length workers.items ≡ vec_len workers }
    requires room { (vec_len workers ≤ vec_capacity joined.posts) × (vec_len workers ≤ vec_capacity keepers.old) }
    ensures pass { IsPassOf cache.now root.new }
    ensures setting { (known root.new).setting ≡ (known root.old).setting }
    ensures grown { (rest : List HistoryEntry) × ((known root.new).seen ≡ (known root.old).seen ++ rest) }
    ensures ran { (beginning : Beginning) (history : List HistoryEntry) → (known root.new).setting ≡ Some beginning → Meets caller_of (known root.new) history → Legal beginning history
        → Ran (IsUnused W.Dialer.talks W.Dialer.dial_faults W.Dialer.read_faults W.Dialer.write_faults W.Clock.readings W.Clock.words)
        H.Told H.places (H.Tells host.now) beginning history (W.kits world.old) (W.kits world.new) keepers.new.items result.0 (mine caller_of (known root.old)) }
    ensures within { result.0 ≤ A.most }
    ensures given { W.given world.new ≡ joined_count (W.given world.old) result.0 }
    ensures stopped { Stopped result.1 A.most result.0 (W.ended world.new) (W.listen_faults world.old) (W.listen_faults world.new) }
    ensures links { W.links world.new ≡ W.links world.old }
    ensures kept { W.kept world.new ≡ W.kept world.old }
    ensures ports { W.ports world.new ≡ W.ports world.old }
    ensures files { W.files world.new ≡ W.files world.old }
    ensures shelves { W.shelf_faults world.new ≡ W.shelf_faults world.old }
{
    let Remains {
        listener,
        count,
        accepted,
        left: _,
        reason,
    } = door.close();
    let mut joined = joined;
    disband(workers, &mut joined);
    accepted.audit(&mut joined.accepted);
    let Joined {
        posts,
        accepted: _,
        left: _,
    } = joined;
    rejoin(world, host, cache, root, posts, keepers);
    world.retire(listener);
    (count, reason.unwrap_or(Reason::NoMemory))
}

// A new cache with its first pass, and room for what a run of workers leaves.
fn open_all<C: CacheCore + Drop, S: Drop, N: Drop, A: Quota, B: Ledger>(
    alloc: Global,
    core: C,
    workers: usize,
) -> Option<(SharedCache<C>, CachePass, Room<S, N, A, B>)>
    requires empty { C.history core ≡ [] }
    requires whole { IsKeptWhole (C.beginning core) [] }
    requires first { (C.beginning core).base.entries ≡ 0 }
    ensures pass { IfSome result (λ all. IsPassOf all.0 all.1) }
    ensures first { IfSome result (λ all. known all.1 ≡ opened 0 (C.beginning core)) }
    ensures none { IfSome result (λ all. (all.2.workers.items ≡ []) × (all.2.posts.items ≡ []) × (all.2.keepers.items ≡ [])) }
    ensures lengths { IfSome result (λ all. (vec_len all.2.workers ≡ 0) × (vec_len all.2.posts ≡ 0) × (vec_len all.2.keepers ≡ 0)) }
    ensures room { IfSome result (λ all. (workers ≤ vec_capacity all.2.workers) × (workers ≤ vec_capacity all.2.posts) × (workers ≤ vec_capacity all.2.keepers)) }
{
    let Ok(room) = Room::new(alloc, workers) else {
        return None;
    };
    let Ok((cache, root)) = SharedCache::open(alloc, core, 0, 0) else {
        drop(room);
        return None;
    };
    Some((cache, root, room))
}

// A run of workers over a cache that was just opened.
fn run_all<
    R: Threads + Wait + Sync,
    C: CacheCore + Send + Drop,
    W: World,
    H: Host<C, W::Dialer, W::Clock, LinkOf<W>> + Sync,
    A: Quota + Send,
    B: Ledger + Send,
    J: Job<C> + Send,
    X: Sign + Sync,
>(
    rt: &R,
    alloc: Global,
    world: &mut W,
    host: &H,
    cache: SharedCache<C>,
    root: CachePass,
    door: Door<W::Listener, A, B>,
    count: u32,
    accepted: Share<A>,
    left: Share<B>,
    room: Room<H::Shift, H::Keeper, A, B>,
    job: Option<J>,
    sign: &X,
) -> Outcome<H::Keeper, J::Done>
where
    W::Listener: Send,
    J::Done: Send,
    requires pass { IsPassOf cache root }
    requires first { IsFirst (known root) }
    requires parts { (accepted.parts ≡ A.parts) × (accepted.parts ≡ count) × (left.parts ≡ count) }
    requires nothing { (accepted.amount ≡ 0) × (left.amount ≡ 0) }
    requires none { (room.workers.items ≡ []) × (room.posts.items ≡ []) × (room.keepers.items ≡ []) }
    requires lengths { (vec_len room.workers ≡ 0) × (vec_len room.posts ≡ 0) × (vec_len room.keepers ≡ 0) }
    requires room { (count ≤ vec_capacity room.workers) × (count ≤ vec_capacity room.posts) × (count ≤ vec_capacity room.keepers) }
    ensures ran { (beginning : Beginning) → (known root).setting ≡ Some beginning → Ran (IsUnused W.Dialer.talks W.Dialer.dial_faults W.Dialer.read_faults W.Dialer.write_faults W.Clock.readings W.Clock.words)
        H.Told H.places (H.Tells host.now) beginning
        result.history (W.kits world.old) (W.kits world.new) result.keepers.items result.connections (places_beside J.places result.done) }
    ensures done { (beginning : Beginning) → (known root).setting ≡ Some beginning → IsDone J.Did beginning result.history job result.done }
    ensures within { result.connections ≤ A.most }
    ensures given { W.given world.new ≡ joined_count (W.given world.old) result.connections }
    ensures stopped { Stopped result.reason A.most result.connections (W.ended world.new) (W.listen_faults world.old) (W.listen_faults world.new) }
    ensures links { W.links world.new ≡ W.links world.old }
    ensures kept { W.kept world.new ≡ W.kept world.old }
    ensures ports { W.ports world.new ≡ W.ports world.old }
    ensures files { W.files world.new ≡ W.files world.old }
    ensures shelves { W.shelf_faults world.new ≡ W.shelf_faults world.old }
{
    let Room {
        workers,
        posts,
        mut keepers,
    } = room;
    let (mut accepted, mut left) = (accepted, left);
    let Worked {
        workers,
        pass: mut root,
        done,
    } = employ(
        rt,
        alloc,
        world,
        host,
        &cache,
        root,
        &door,
        count,
        &mut accepted,
        &mut left,
        workers,
        job,
        sign,
    );
    let joined = Joined {
        posts,
        accepted,
        left,
    };
    let (connections, reason) = take_down(
        world,
        host,
        &cache,
        &mut root,
        door,
        workers,
        joined,
        &mut keepers,
    );
    let (history, _) = cache.close(rt, root);
    Outcome {
        history,
        keepers,
        done,
        connections,
        reason,
    }
}

// Nobody was accepted, as the share of all tells: the world has its listener back.
fn turn_away<W: World, A: Quota, B: Ledger>(
    world: &mut W,
    door: Door<W::Listener, A, B>,
    accepted: Share<A>,
)
    requires all { accepted.parts ≡ A.parts }
    requires nothing { accepted.amount ≡ 0 }
    ensures links { W.links world.new ≡ W.links world.old }
    ensures kept { W.kept world.new ≡ W.kept world.old }
    ensures given { W.given world.new ≡ W.given world.old }
    ensures kits { W.kits world.new ≡ W.kits world.old }
    ensures ports { W.ports world.new ≡ W.ports world.old }
    ensures files { W.files world.new ≡ W.files world.old }
    ensures shelves { W.shelf_faults world.new ≡ W.shelf_faults world.old }
{
    let remains = door.close();
    let mut accepted = accepted;
    remains.accepted.audit(&mut accepted);
    world.retire(remains.listener);
}

// The same for two ledgers of its own.
fn serve_counted<
    R: Threads + Wait + Sync,
    C: CacheCore + Send + Drop,
    W: World,
    H: Host<C, W::Dialer, W::Clock, LinkOf<W>> + Sync,
    A: Quota + Send,
    B: Ledger + Send,
    J: Job<C> + Send,
    X: Sign + Sync,
>(
    rt: &R,
    alloc: Global,
    core: C,
    host: &H,
    world: &mut W,
    listener: W::Listener,
    workers: u32,
    most: u64,
    accepted: Blank,
    left: Blank,
    job: Option<J>,
    sign: &X,
) -> Option<Outcome<H::Keeper, J::Done>>
where
    W::Listener: Send,
    J::Done: Send,
    requires empty { C.history core ≡ [] }
    requires can_begin { CanBegin (C.beginning core) }
    requires unused { W.Listener.given listener ≡ 0 }
    requires most { most ≡ A.most }
    requires accepted { (accepted.name ≡ A.name) × (accepted.parts ≡ A.parts) × (accepted.parts ≡ workers) }
    requires left { (left.name ≡ B.name) × (left.parts ≡ B.parts) × (left.parts ≡ workers) }
    ensures ran { IfSome result (λ o. Ran (IsUnused W.Dialer.talks W.Dialer.dial_faults W.Dialer.read_faults W.Dialer.write_faults W.Clock.readings W.Clock.words)
        H.Told H.places (H.Tells host.now) (C.beginning core)
        o.history (W.kits world.old) (W.kits world.new) o.keepers.items o.connections (places_beside J.places o.done)) }
    ensures done { IfSome result (λ o. IsDone J.Did (C.beginning core) o.history job o.done) }
    ensures within { IfSome result (λ o. o.connections ≤ most) }
    ensures given { IfSome result (λ o. W.given world.new ≡ joined_count (W.given world.old) o.connections) }
    ensures stopped { IfSome result (λ o. Stopped o.reason most o.connections (W.ended world.new) (W.listen_faults world.old) (W.listen_faults world.new)) }
    ensures nobody { IfNone result ((W.kits world.new ≡ W.kits world.old) × (W.given world.new ≡ W.given world.old)) }
    ensures links { W.links world.new ≡ W.links world.old }
    ensures kept { W.kept world.new ≡ W.kept world.old }
    ensures ports { W.ports world.new ≡ W.ports world.old }
    ensures files { W.files world.new ≡ W.files world.old }
    ensures shelves { W.shelf_faults world.new ≡ W.shelf_faults world.old }
{
    let (door, accepted, left) = Door::<W::Listener, A, B>::open(listener, most, accepted, left);
    let Some(all) = open_all(alloc, core, workers as usize) else {
        drop(left);
        turn_away(world, door, accepted);
        return None;
    };
    let (cache, root, room) = all;
    Some(run_all(
        rt, alloc, world, host, cache, root, door, workers, accepted, left, room, job, sign,
    ))
}

/// Serves connections at the listener over a new cache, by so many workers side by side, and takes all down again. At most so many
/// connections are accepted. The job is done beside the workers by the run's first pass, if there is one; the sign is raised then once
/// they have left. Without memory to begin with there is no outcome; the world has the listener back in each case. The call may
/// wait for good.
pub fn serve_all<
    R: Threads + Wait + Sync,
    C: CacheCore + Send + Drop,
    W: World,
    H: Host<C, W::Dialer, W::Clock, LinkOf<W>> + Sync,
    J: Job<C> + Send,
    X: Sign + Sync,
>(
    rt: &R,
    alloc: Global,
    core: C,
    host: &H,
    world: &mut W,
    listener: W::Listener,
    workers: u32,
    most: u64,
    job: Option<J>,
    sign: &X,
) -> Option<Outcome<H::Keeper, J::Done>>
where
    W::Listener: Send,
    J::Done: Send,
    requires empty { C.history core ≡ [] }
    requires can_begin { CanBegin (C.beginning core) }
    requires unused { W.Listener.given listener ≡ 0 }
    ensures ran { IfSome result (λ o. Ran (IsUnused W.Dialer.talks W.Dialer.dial_faults W.Dialer.read_faults W.Dialer.write_faults W.Clock.readings W.Clock.words)
        H.Told H.places (H.Tells host.now) (C.beginning core)
        o.history (W.kits world.old) (W.kits world.new) o.keepers.items o.connections (places_beside J.places o.done)) }
    ensures done { IfSome result (λ o. IsDone J.Did (C.beginning core) o.history job o.done) }
    ensures within { IfSome result (λ o. o.connections ≤ most) }
    ensures given { IfSome result (λ o. W.given world.new ≡ joined_count (W.given world.old) o.connections) }
    ensures stopped { IfSome result (λ o. Stopped o.reason most o.connections (W.ended world.new) (W.listen_faults world.old) (W.listen_faults world.new)) }
    ensures nobody { IfNone result ((W.kits world.new ≡ W.kits world.old) × (W.given world.new ≡ W.given world.old)) }
    ensures links { W.links world.new ≡ W.links world.old }
    ensures kept { W.kept world.new ≡ W.kept world.old }
    ensures ports { W.ports world.new ≡ W.ports world.old }
    ensures files { W.files world.new ≡ W.files world.old }
    ensures shelves { W.shelf_faults world.new ≡ W.shelf_faults world.old }
{
    serve_counted::<R, C, W, H, Brand, Brand, J, X>(
        rt,
        alloc,
        core,
        host,
        world,
        listener,
        workers,
        most,
        Blank::new(u64::from(workers)),
        Blank::new(u64::from(workers)),
        job,
        sign,
    )
}
