// What callers are told that share one cache.
ghost use Rattle.std.specs.Prelude.{◌≡◌, ◌^◌, ◌<◌, IfOk};
ghost use Rattle.turnstile.specs.Handles.{known};
ghost use Rattle.shared_cache.specs.Passes.{IsPassOf};

use crate::clock::SteadyClock;
use crate::crowd::{call_together, make_calls};
use ban_lurker::LurkCore;
use cache_law::{CacheCore, Entry, Params, Reply};
use core_rows::{Shown, core_of, history_shown, shown, step};
use shared_cache::{CachePass, Errand, SharedCache};
use std::alloc::{AllocError, Global};
use std::sync::Wait;
use std::thread::{Threads, join};
use units::Sequence;

// A cache with room for many calls, and its pass under this number.
fn open<C: CacheCore + Drop>(
    alloc: Global,
    first: u32,
) -> Result<(SharedCache<C>, CachePass), AllocError>
    ensures { IfOk result (λ r. IsPassOf r.0 r.1 × ((known r.1).number ≡ first) × ((known r.1).upto ≡ 2 ^ 32)) }
{
    let core = core_of(alloc, Params::DEFAULT_ROOM, Params::DEFAULT_HISTORY)?;
    match SharedCache::open(alloc, core, first, 0) {
        Ok(opened) => Ok(opened),
        Err(_) => Err(AllocError),
    }
}

fn clock() -> SteadyClock {
    SteadyClock { next: 5, step: 0 }
}

/// How many rounds of each of so many threads ended, and whether a cache of one caller tells the same.
pub fn callers_shown<C: CacheCore + Drop + Send, R: Threads + Wait + Sync>(
    rt: &R,
    alloc: Global,
    row: &str,
) -> Result<String, AllocError> {
    let (threads, rounds) = row.split_once(' ').unwrap_or((row, ""));
    let threads = threads.parse::<u32>().unwrap_or(0);
    let rounds = rounds.parse::<u32>().unwrap_or(0);
    if threads == 0 {
        return format!(in alloc; "no threads");
    }
    let history = history_of::<C, R>(rt, alloc, threads, rounds)?;
    let mut out = rounds_shown(alloc, threads, history.as_slice())?;
    out.push_str(retold::<C>(alloc, history)?)?;
    Ok(out)
}

// The history that the threads leave.
fn history_of<C: CacheCore + Drop + Send, R: Threads + Wait + Sync>(
    rt: &R,
    alloc: Global,
    threads: u32,
    rounds: u32,
) -> Result<Sequence<Entry>, AllocError>
    requires { 0 < threads }
{
    let (cache, pass) = open::<C>(alloc, 0)?;
    let pass = call_together(rt, alloc, &cache, pass, threads, rounds);
    let (history, _pass) = cache.close(rt, pass);
    Ok(history)
}

fn rounds_shown(alloc: Global, threads: u32, history: &[Entry]) -> Result<String, AllocError> {
    let mut out = String::new(alloc);
    for caller in 0..threads {
        let space = if caller == 0 { "" } else { " " };
        let rounds = rounds_of(history, caller);
        write!(out, "{space}{rounds}")?;
    }
    Ok(out)
}

fn rounds_of(history: &[Entry], caller: u32) -> u64 {
    let mut rounds: u64 = 0;
    for entry in history {
        if entry.caller == caller && matches!(&entry.reply, Reply::Ended) {
            rounds = rounds.saturating_add(1);
        }
    }
    rounds
}

// Whether the callers of a history, one after another, are told the same by a cache of their own.
fn retold<C: CacheCore + Drop>(
    alloc: Global,
    history: Sequence<Entry>,
) -> Result<&'static str, AllocError> {
    let mut core: C = core_of(alloc, Params::DEFAULT_ROOM, Params::DEFAULT_HISTORY)?;
    for entry in history.into_vec() {
        if !is_told_alike(alloc, &mut core, entry) {
            return Ok(", told otherwise");
        }
    }
    Ok(", told alike")
}

fn is_told_alike<C: CacheCore>(alloc: Global, core: &mut C, entry: Entry) -> bool {
    let Entry {
        caller,
        moment,
        call,
        reply,
    } = entry;
    match step(alloc, core, caller, moment, call) {
        Some(Ok(told)) => told.moment == moment && shown(&told.reply) == shown(&reply),
        _ => false,
    }
}

/// Two passes make the calls one after the other, and are joined: the number of the pass then and behind the close, what
/// each was told, and the history.
pub fn passes_shown<C: CacheCore + Drop, R: Wait>(
    rt: &R,
    alloc: Global,
    calls: &str,
) -> Result<String, AllocError> {
    let (cache, mut pass) = open::<C>(alloc, 1)?;
    let mut other = cache.split(&mut pass, 2);
    let first = make_calls(rt, alloc, &cache, &mut pass, &mut clock(), calls);
    let second = make_calls(rt, alloc, &cache, &mut other, &mut clock(), calls);
    cache.join(&mut pass, other);
    let joined = pass.number();
    let (history, pass) = cache.close(rt, pass);
    let history = history_shown(alloc, history.as_slice())?;
    let (first, second) = (told_shown(alloc, first)?, told_shown(alloc, second)?);
    format!(in alloc; "{joined} {}, {first}, {second}, {history}", pass.number())
}

fn told_shown(alloc: Global, told: Shown) -> Result<String, AllocError> {
    let (word, first, second) = told;
    format!(in alloc; "{word} {first} {second}")
}

/// What a caller is told that waits for the other's fetch, number 2, once the other makes its last calls.
pub fn waiting_shown<C: CacheCore + Drop + Send, R: Threads + Wait + Sync>(
    rt: &R,
    alloc: Global,
    last: &str,
) -> Result<String, AllocError> {
    let (cache, mut pass) = open::<C>(alloc, 1)?;
    let mut other = cache.split(&mut pass, 2);
    let asking = "begin|lookup key=page";
    make_calls(rt, alloc, &cache, &mut pass, &mut clock(), asking);
    make_calls(rt, alloc, &cache, &mut other, &mut clock(), asking);
    let shared = &cache;
    let (told, _last) = join(
        rt,
        move || -> Shown
            requires { IsPassOf shared.now other }
        { last_told(rt, alloc, shared, other, "lookup key=page") },
        move || -> Shown
            requires { IsPassOf shared.now pass }
        { last_told(rt, alloc, shared, pass, last) },
    );
    told_shown(alloc, told)
}

// What the caller is told at the last of these calls.
fn last_told<C: CacheCore, R: Wait>(
    rt: &R,
    alloc: Global,
    cache: &SharedCache<C>,
    mut pass: CachePass,
    calls: &str,
) -> Shown
    requires { IsPassOf cache.now pass }
{
    make_calls(rt, alloc, cache, &mut pass, &mut clock(), calls)
}

/// What comes of an errand behind these calls, and the history.
pub fn errand_shown<C: LurkCore + Drop, R: Wait>(
    rt: &R,
    alloc: Global,
    calls: &str,
) -> Result<String, AllocError> {
    let (cache, mut pass) = open::<C>(alloc, 1)?;
    make_calls(rt, alloc, &cache, &mut pass, &mut clock(), calls);
    let word = match cache.errand(rt, alloc, &mut pass)? {
        Errand::Settled(_) => "settled",
        Errand::Moved(_) => "moved",
        Errand::Idle => "idle",
    };
    let (history, _pass) = cache.close(rt, pass);
    let history = history_shown(alloc, history.as_slice())?;
    format!(in alloc; "{word}, {history}")
}
