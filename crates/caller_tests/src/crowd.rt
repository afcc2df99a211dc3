// Callers that make their rounds side by side.
ghost use Rattle.std.specs.Prelude.{◌≡◌, ◌+◌, ◌-◌, ◌^◌, ◌<◌, ◌≤◌};
ghost use denote.Param.Send.{IsSync, IsSend};
ghost use Rattle.turnstile.specs.Handles.{known, number_of};
ghost use Rattle.shared_cache.specs.Passes.{IsPassOf};

use crate::clock::SteadyClock;
use cache_law::CacheCore;
use core_rows::{Shown, call, shown};
use shared_cache::{CachePass, SharedCache};
use std::alloc::Global;
use std::sync::Wait;
use std::thread::{Threads, join};

/// One call by its words, and what the caller is told.
fn make_call<C: CacheCore, R: Wait>(
    rt: &R,
    alloc: Global,
    cache: &SharedCache<C>,
    pass: &mut CachePass,
    clock: &mut SteadyClock,
    words: &str,
) -> Shown
    requires { IsPassOf cache.now pass.old }
    ensures { IsPassOf cache.now pass.new }
{
    let Ok(Some(call)) = call(alloc, words) else {
        return ("no call", 0, 0);
    };
    match cache.call(rt, alloc, pass, clock, call) {
        Ok(told) => shown(&told.reply),
        Err(_) => ("no answer", 0, 0),
    }
}

/// Calls by their words, with bars between, one after another; and what the caller is told at the last.
pub fn make_calls<C: CacheCore, R: Wait>(
    rt: &R,
    alloc: Global,
    cache: &SharedCache<C>,
    pass: &mut CachePass,
    clock: &mut SteadyClock,
    calls: &str,
) -> Shown
    requires { IsPassOf cache.now pass.old }
    ensures { IsPassOf cache.now pass.new }
{
    let mut told = ("nothing", 0, 0);
    'calls: for words in calls.split('|') {
        told = make_call(rt, alloc, cache, pass, clock, words);
    }
    told
}

/// So many rounds, one after another: a begin, a lookup, and the end.
fn make_rounds<C: CacheCore, R: Wait>(
    rt: &R,
    alloc: Global,
    cache: &SharedCache<C>,
    mut pass: CachePass,
    rounds: u32,
) -> CachePass
    requires { IsPassOf cache.now pass }
    ensures { IsPassOf cache.now result }
{
    let mut clock = SteadyClock {
        next: 100 * u64::from(pass.number()),
        step: 7,
    };
    'rounds: for _ in 0..rounds {
        let round = "begin|lookup key=page|end";
        make_calls(rt, alloc, cache, &mut pass, &mut clock, round);
    }
    pass
}

/// So many threads make their rounds side by side, each under a number of its own from the pass's upwards.
pub fn call_together<C: CacheCore + Send, R: Threads + Wait + Sync>(
    rt: &R,
    alloc: Global,
    cache: &SharedCache<C>,
    mut pass: CachePass,
    threads: u32,
    rounds: u32,
) -> CachePass
    requires pass { IsPassOf cache.now pass }
    requires some { 0 < threads }
    requires room { (known pass).number + threads ≤ (known pass).upto }
    requires narrow { (known pass).upto ≤ 2 ^ 32 }
    ensures { IsPassOf cache.now result }
{
    if threads == 1 {
        return make_rounds(rt, alloc, cache, pass, rounds);
    }
    let rest = threads / 2;
    let kept = threads - rest;
    let first_of_rest = pass.number() + kept;
    let other = cache.split(&mut pass, first_of_rest);
    let (mut pass, other) = join(
        rt,
        move || -> CachePass
            requires { IsSync R.row × IsSend C.row × IsPassOf cache.now pass × (0 < kept) × ((known pass).number + kept ≤ (known pass).upto) × ((known pass).upto ≤ 2 ^ 32) }
            ensures { IsPassOf cache.entry.now result }
        { call_together(rt, alloc, cache, pass, kept, rounds) },
        move || -> CachePass
            requires { IsSync R.row × IsSend C.row × IsPassOf cache.now other × (0 < rest) × ((known other).number + rest ≤ (known other).upto) × ((known other).upto ≤ 2 ^ 32) }
            ensures { IsPassOf cache.entry.now result }
        { call_together(rt, alloc, cache, other, rest, rounds) },
    );
    cache.join(&mut pass, other);
    pass
}
