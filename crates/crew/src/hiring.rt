// Workers who are hired.
ghost use Rattle.std.specs.Prelude.{◌≡◌, ◌<◌, ◌≤◌, ◌+◌, [], OnOk, OnErr, vec_len, vec_capacity, All};
ghost use Rattle.turnstile.specs.Handles.{known};
ghost use Rattle.turnstile.specs.Knowledge.{cut_off};
ghost use Rattle.shared_cache.specs.Passes.{IsPassOf};
ghost use Rattle.workers.specs.Working.{IsReady};
ghost use Rattle.crew.specs.Opening.{IsFirst};
ghost use Rattle.crew.specs.Hiring.{Hires, HiresOne, IsUnused};

use crate::host::Host;
use cache_law::CacheCore;
use entrance::Quota;
use shared_cache::{CachePass, SharedCache};
use std::alloc::{AllocError, Global};
use std::sync::ledger::{Ledger, Share};
use workers::{Post, Worker};
use world::{Listener, World};

pub(crate) type LinkOf<W> = <<W as World>::Listener as Listener>::Link;

// Hires a worker under this number, with a kit of the world and a part of each book.
fn hire_one<
    W: World,
    C: CacheCore,
    H: Host<C, W::Dialer, W::Clock, LinkOf<W>>,
    A: Quota,
    B: Ledger,
>(
    alloc: Global,
    world: &mut W,
    host: &H,
    cache: &SharedCache<C>,
    root: &mut CachePass,
    number: u32,
    accepted: &mut Share<A>,
    left: &mut Share<B>,
    workers: &mut Vec<Worker<H::Shift, H::Keeper, A, B>>,
) -> Result<(), AllocError>
    requires pass { IsPassOf cache.now root.old }
    requires number { ((known root.old).number < number) × (number < (known root.old).upto) }
    requires unseen { (known root.old).seen ≡ [] }
    requires parts { (0 < accepted.old.parts) × (0 < left.old.parts) }
    requires nothing { (accepted.old.amount ≡ 0) × (left.old.amount ≡ 0) }
    requires room { vec_len workers.old < vec_capacity workers.old }
    ensures hired { OnOk result (HiresOne (IsPassOf cache.now) (IsUnused W.Dialer.talks W.Dialer.dial_faults W.Dialer.read_faults W.Dialer.write_faults W.Clock.readings W.Clock.words)
        H.pass_of H.kit_of H.Told (known root.old).setting number workers.old.items workers.new.items) }
    ensures pass { IsPassOf cache.now root.new }
    ensures cut { OnOk result (known root.new ≡ cut_off (known root.old) number) }
    ensures parts { OnOk result ((accepted.new.parts + 1 ≡ accepted.old.parts) × (left.new.parts + 1 ≡ left.old.parts)) }
    ensures nothing { (accepted.new.amount ≡ 0) × (left.new.amount ≡ 0) }
    ensures one { OnOk result (vec_len workers.new ≡ vec_len workers.old + 1) }
    ensures room { vec_capacity workers.new ≡ vec_capacity workers.old }
    ensures same { OnErr result ((known root.new ≡ known root.old) × (accepted.new.parts ≡ accepted.old.parts) × (left.new.parts ≡ left.old.parts) × (workers.new.items ≡ workers.old.items) × (vec_len workers.new ≡ vec_len workers.old)) }
    ensures links { W.links world.new ≡ W.links world.old }
    ensures kept { W.kept world.new ≡ W.kept world.old }
    ensures given { W.given world.new ≡ W.given world.old }
    ensures ports { W.ports world.new ≡ W.ports world.old }
    ensures kits { W.kits world.new ≡ W.kits world.old }
    ensures files { W.files world.new ≡ W.files world.old }
    ensures listens { W.listen_faults world.new ≡ W.listen_faults world.old }
    ensures shelves { W.shelf_faults world.new ≡ W.shelf_faults world.old }
    ensures ended { W.ended world.new ≡ W.ended world.old }
{
    let outfit = host.outfit(alloc)?;
    let Ok(kit) = world.kit() else {
        drop(outfit);
        return Err(AllocError);
    };
    let pass = cache.split(root, number);
    workers.push_reserved(Worker {
        post: Some(Post {
            shift: host.begin_shift(outfit, pass, kit),
            keeper: host.begin_keeper(alloc),
        }),
        accepted: accepted.split_off(1, 0),
        left: left.split_off(1, 0),
        leave: None,
    });
    Ok(())
}

/// Hires workers under the numbers from `count` down to 1, each if there is memory for it.
pub(crate) fn hire<
    W: World,
    C: CacheCore,
    H: Host<C, W::Dialer, W::Clock, LinkOf<W>>,
    A: Quota,
    B: Ledger,
>(
    alloc: Global,
    world: &mut W,
    host: &H,
    cache: &SharedCache<C>,
    root: &mut CachePass,
    count: u32,
    accepted: &mut Share<A>,
    left: &mut Share<B>,
    workers: &mut Vec<Worker<H::Shift, H::Keeper, A, B>>,
)
    requires pass { IsPassOf cache.now root.old }
    requires first { IsFirst (known root.old) }
    requires parts { (count ≤ accepted.old.parts) × (count ≤ left.old.parts) }
    requires nothing { (accepted.old.amount ≡ 0) × (left.old.amount ≡ 0) }
    requires none { (workers.old.items ≡ []) × (vec_len workers.old ≡ 0) }
    requires room { vec_len workers.old + count ≤ vec_capacity workers.old }
    ensures pass { IsPassOf cache.now root.new }
    ensures hired { Hires (IsPassOf cache.now) (IsUnused W.Dialer.talks W.Dialer.dial_faults W.Dialer.read_faults W.Dialer.write_faults W.Clock.readings W.Clock.words)
        H.pass_of H.kit_of H.Told (known root.old).setting 0 (known root.old) (known root.new) workers.new.items }
    ensures ready { All (IsReady (H.Ready host.now cache.now)) workers.new.items }
    ensures parts { (accepted.new.parts + vec_len workers.new ≡ accepted.old.parts) × (left.new.parts + vec_len workers.new ≡ left.old.parts) }
    ensures nothing { (accepted.new.amount ≡ 0) × (left.new.amount ≡ 0) }
    ensures few { vec_len workers.new ≤ count }
    ensures links { W.links world.new ≡ W.links world.old }
    ensures kept { W.kept world.new ≡ W.kept world.old }
    ensures given { W.given world.new ≡ W.given world.old }
    ensures ports { W.ports world.new ≡ W.ports world.old }
    ensures kits { W.kits world.new ≡ W.kits world.old }
    ensures files { W.files world.new ≡ W.files world.old }
    ensures listens { W.listen_faults world.new ≡ W.listen_faults world.old }
    ensures shelves { W.shelf_faults world.new ≡ W.shelf_faults world.old }
    ensures ended { W.ended world.new ≡ W.ended world.old }
{
    let mut number = count;
    'hiring: while number > 0 {
        let _ = hire_one(
            alloc, world, host, cache, root, number, accepted, left, workers,
        );
        number -= 1;
    }
}
