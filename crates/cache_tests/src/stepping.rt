// What is asked of a core.
use ban_lurker::LurkCore;
use cache_frame::{Framed, Shelf};
use cache_law::{CacheCore, Call, Entry, Kept, Params, StepError, Told};
use core_rows::{call, core_of, core_within, history_shown, shown, step};
use row_settings::{has, number};
use std::alloc::{AllocError, Global};
use std::mem;

/// What a core is, or how it steps. A core whose history is told is gone; one that is reopened goes on.
pub fn said<S: Shelf>(
    alloc: Global,
    core: &mut Framed<S>,
    row: &str,
) -> Result<String, AllocError> {
    let (word, rest) = row.split_once(' ').unwrap_or((row, ""));
    match word {
        "core" => renew(alloc, core, rest),
        "lurk" => lurked(alloc, core, rest),
        "step" => stepped(alloc, core, rest),
        "history" => told_history(alloc, core),
        "reopen" => reopened(alloc, core),
        "bytes" => format!(in alloc; "{}", core.bytes()),
        "closed" => format!(in alloc; "{}", core.closed(number(rest, "token", 0))),
        "entry_size" => format!(in alloc; "{}", mem::size_of::<Entry>()),
        _ => format!(in alloc; "no such row"),
    }
}

// A new core by the settings `room` and `history`, which keeps segments where the row has that word.
fn renew<S: Shelf>(alloc: Global, core: &mut Framed<S>, row: &str) -> Result<String, AllocError> {
    let params = Params {
        room: number(row, "room", 0),
        history: number(row, "history", 0),
        segments: has(row, "segments"),
    };
    *core = core_within(alloc, &params)?;
    Ok(String::new(alloc))
}

fn told_history<S: Shelf>(alloc: Global, core: &mut Framed<S>) -> Result<String, AllocError> {
    let told = mem::replace(core, core_of(alloc, 0, 0)?);
    history_shown(alloc, told.into_history().as_slice())
}

// How many entries a core had, which goes on with none. Nothing may be open.
fn reopened<S: Shelf>(alloc: Global, core: &mut Framed<S>) -> Result<String, AllocError> {
    let told = mem::replace(core, core_of(alloc, 0, 0)?);
    if !told.is_idle() {
        *core = told;
        return format!(in alloc; "open");
    }
    match told.reopen(alloc) {
        Ok((history, next)) => {
            *core = next;
            format!(in alloc; "{}", history.as_slice().len())
        }
        Err(Kept { core: kept }) => {
            *core = kept;
            format!(in alloc; "no memory")
        }
    }
}

// What the lurker of a core finds, which is asked for so many objects.
fn lurked<S: Shelf>(alloc: Global, core: &mut Framed<S>, row: &str) -> Result<String, AllocError> {
    let count = number(row, "count", 0).min(9) as u32;
    format!(in alloc; "{}", core.lurk(alloc, count)?)
}

fn stepped<S: Shelf>(alloc: Global, core: &mut Framed<S>, row: &str) -> Result<String, AllocError> {
    let (caller, rest) = row.split_once(' ').unwrap_or((row, ""));
    let (reading, words) = rest.split_once(' ').unwrap_or((rest, ""));
    let (Ok(caller), Ok(reading)) = (caller.parse::<u32>(), reading.parse::<u64>()) else {
        return format!(in alloc; "no numbers");
    };
    match call(alloc, words)? {
        Some(call) => step_shown(alloc, core, caller, reading, call),
        None => format!(in alloc; "no call"),
    }
}

fn step_shown<S: Shelf>(
    alloc: Global,
    core: &mut Framed<S>,
    caller: u32,
    reading: u64,
    call: Call,
) -> Result<String, AllocError> {
    let answer = step(alloc, core, caller, reading, call);
    let awaits = core.awaits(caller);
    match &answer {
        Some(Ok(told)) => told_shown(alloc, told, awaits),
        Some(Err(StepError::SegmentFull)) => format!(in alloc; "segment full"),
        Some(Err(StepError::HistoryFull)) => format!(in alloc; "history full"),
        Some(Err(StepError::NoMemory)) => format!(in alloc; "no memory"),
        None => format!(in alloc; "waits"),
    }
}

fn told_shown(alloc: Global, told: &Told, awaits: Option<u64>) -> Result<String, AllocError> {
    let (word, first, second) = shown(&told.reply);
    let (place, moment) = (told.place, told.moment);
    match awaits {
        None => format!(in alloc; "{place} {moment} {word} {first} {second}"),
        Some(token) => format!(in alloc;
            "{place} {moment} {word} {first} {second}, awaits {token}"
        ),
    }
}
