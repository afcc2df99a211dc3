// Two workers who ask at one door, side by side.
ghost use Rattle.std.specs.Prelude.{◌≡◌, ◌+◌, ◌<◌};

use crate::listeners::listener_of;
use entrance::{Door, Quota};
use row_settings::number;
use std::alloc::{AllocError, Global};
use std::marker::Brand;
use std::sync::Wait;
use std::sync::ledger::{Blank, Ledger, Share};
use std::thread::{Threads, join};
use world::{AcceptedLink, FailingListener};

/// A connection's number, the last part of its address.
pub fn number_of(one: (AcceptedLink, [u8; 4])) -> u8 {
    let (_, address) = one;
    address[3]
}

// The numbers of the connections that the worker gets until the door is shut.
fn ask_on<R: Wait, A: Quota, B: Ledger>(
    rt: &R,
    alloc: Global,
    door: &Door<FailingListener, A, B>,
    mut mine: Share<A>,
    mut leaving: Share<B>,
) -> Result<Vec<u8>, AllocError>
    requires { (0 < mine.parts) × (0 < leaving.parts) }
{
    let mut numbers = Vec::new(alloc);
    'asking: for _ in rt.forever() {
        match door.enter(rt, &mut mine, &mut leaving) {
            Some(one) => numbers.push(number_of(one))?,
            None => return Ok(numbers),
        }
    }
    unreachable!()
}

fn ask_together<R: Threads + Wait + Sync, A: Quota + Send, B: Ledger + Send>(
    rt: &R,
    alloc: Global,
    listener: FailingListener,
    most: u64,
    accepted: Blank,
    left: Blank,
) -> Result<Vec<u8>, AllocError>
    requires unused { listener.given ≡ 0 }
    requires most { most ≡ A.most }
    requires accepted { (accepted.name ≡ A.name) × (accepted.parts ≡ A.parts) }
    requires left { (left.name ≡ B.name) × (left.parts ≡ B.parts) }
    requires two { (accepted.parts ≡ 2) × (left.parts ≡ 2) }
{
    let (door, mut mine, mut leaving) = Door::<FailingListener, A, B>::open(
        listener, most, accepted, left,
    );
    let theirs = mine.split_off(1, 0);
    let their_leaving = leaving.split_off(1, 0);
    let shared = &door;
    let (first, second) = join(
        rt,
        move || -> Result<Vec<u8>, AllocError>
            requires { (0 < mine.parts) × (0 < leaving.parts) }
        { ask_on(rt, alloc, shared, mine, leaving) },
        move || -> Result<Vec<u8>, AllocError>
            requires { (0 < theirs.parts) × (0 < their_leaving.parts) }
        { ask_on(rt, alloc, shared, theirs, their_leaving) },
    );
    in_order(first, second)
}

fn in_order(
    first: Result<Vec<u8>, AllocError>,
    second: Result<Vec<u8>, AllocError>,
) -> Result<Vec<u8>, AllocError> {
    let mut all = first?;
    all.append(&mut second?)?;
    all.sort()?;
    Ok(all)
}

/// The numbers of the connections that two workers get, in their order, until the door is shut.
pub fn together_shown<R: Threads + Wait + Sync>(
    rt: &R,
    alloc: Global,
    row: &str,
) -> Result<String, AllocError> {
    let listener = listener_of(alloc, row)?;
    let most = number(row, "most", 0);
    let all = ask_together::<R, Brand, Brand>(
        rt,
        alloc,
        listener,
        most,
        Blank::new(2),
        Blank::new(2),
    )?;
    format!(in alloc; "{all:?}")
}
