// One worker who asks at the door. The settings are those of the listener (`listeners.rt`), `most` for how many are accepted at
// most, `asks` for how often the worker asks, and `wanting` for the asking before which it is wanting memory.
ghost use Rattle.std.specs.Prelude.{◌≡◌, ◌<◌};

use crate::listeners::listener_of;
use crate::together::number_of;
use entrance::{Door, Quota};
use row_settings::number;
use std::alloc::{AllocError, Global};
use std::marker::Brand;
use std::sync::Wait;
use std::sync::ledger::{Blank, Ledger, Share};
use world::{AcceptedLink, FailingListener};

// How often the worker asks, and before which asking it is wanting memory.
#[derive(Clone, Copy)]
struct Asks {
    count: u64,
    wanting: u64,
}

fn ask<R: Wait, A: Quota, B: Ledger>(
    rt: &R,
    alloc: Global,
    listener: FailingListener,
    most: u64,
    asks: Asks,
    accepted: Blank,
    left: Blank,
) -> Result<String, AllocError>
    requires unused { listener.given ≡ 0 }
    requires most { most ≡ A.most }
    requires accepted { (accepted.name ≡ A.name) × (accepted.parts ≡ A.parts) }
    requires left { (left.name ≡ B.name) × (left.parts ≡ B.parts) }
    requires some { (0 < accepted.parts) × (0 < left.parts) }
{
    let (door, mut mine, mut leaving) = Door::<FailingListener, A, B>::open(
        listener, most, accepted, left,
    );
    let mut given = Vec::new(alloc);
    let asked = ask_all(rt, &door, asks, &mut mine, &mut leaving, &mut given);
    let reason = door.close().reason;
    asked?;
    format!(in alloc; "{given:?} {reason:?}")
}

fn ask_all<R: Wait, A: Quota, B: Ledger>(
    rt: &R,
    door: &Door<FailingListener, A, B>,
    asks: Asks,
    mine: &mut Share<A>,
    leaving: &mut Share<B>,
    given: &mut Vec<Option<u8>>,
) -> Result<(), AllocError>
    requires { (0 < mine.old.parts) × (0 < leaving.old.parts) }
{
    'asking: for asking in 0..asks.count {
        if asking == asks.wanting {
            door.give_up(rt);
        }
        given.push(number_given(door.enter(rt, mine, leaving)))?;
    }
    Ok(())
}

fn number_given(one: Option<(AcceptedLink, [u8; 4])>) -> Option<u8> {
    match one {
        Some(one) => Some(number_of(one)),
        None => None,
    }
}

/// The number of the connection that each asking gave, and why no more were accepted.
pub fn door_shown<R: Wait>(rt: &R, alloc: Global, row: &str) -> Result<String, AllocError> {
    let listener = listener_of(alloc, row)?;
    let most = number(row, "most", 0);
    let asks = Asks {
        count: number(row, "asks", 0),
        wanting: number(row, "wanting", u64::MAX),
    };
    ask::<R, Brand, Brand>(
        rt,
        alloc,
        listener,
        most,
        asks,
        Blank::new(1),
        Blank::new(1),
    )
}
