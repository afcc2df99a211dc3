// Random calls, as the words of `core_rows`.
use crate::dice::Dice;
use std::alloc::{AllocError, Global};

/// A fetch that was opened, which may have been closed since.
#[derive(Clone, Copy, Debug)]
pub struct Opened {
    pub caller: u32,
    pub token: u64,
    pub key: &'static str,
    pub stale: Option<u64>,
}

/// Who calls, for which key where it is of one, and in which words; and which fetch that is to close.
#[derive(Drop)]
pub struct Move {
    pub caller: u32,
    pub key: &'static str,
    pub words: String,
    pub closes: Option<u64>,
}

const KEYS: [&str; 6] = ["a", "b", "c", "d", "e", "f"];

const TAGS: [&str; 4] = ["t", "u", "v", "t,u"];

const NAMES: [&str; 4] = ["v", "w", "boot", "none"];

/// A random call at the moment, with fetches that were opened.
pub fn next_move(
    alloc: Global,
    dice: &mut Dice,
    moment: u64,
    opened: &[Opened],
) -> Result<Move, AllocError> {
    let caller = u32::try_from(dice.below(3)).unwrap_or(0);
    let roll = dice.below(100);
    if 51 <= roll && roll < 68 {
        let fetch = fetch_of(dice, caller, opened);
        let words = closing(alloc, dice, moment, roll, &fetch)?;
        return Ok(Move {
            caller: fetch.caller,
            key: fetch.key,
            words,
            closes: Some(fetch.token),
        });
    }
    let key = dice.one_of(&KEYS);
    let words = words_of(alloc, dice, roll, key)?;
    Ok(Move {
        caller,
        key,
        words,
        closes: None,
    })
}

// Mostly one that was opened.
fn fetch_of(dice: &mut Dice, caller: u32, opened: &[Opened]) -> Opened {
    let at = dice.below(opened.len() as u64 + 1) as usize;
    match opened.get(at) {
        Some(fetch) => *fetch,
        None => Opened {
            caller,
            token: dice.below(50),
            key: dice.one_of(&KEYS),
            stale: None,
        },
    }
}

fn closing(
    alloc: Global,
    dice: &mut Dice,
    moment: u64,
    roll: u64,
    fetch: &Opened,
) -> Result<String, AllocError> {
    let token = fetch.token;
    match roll {
        51..=52 => format!(in alloc; "drop token={token}"),
        53..=56 => marker(alloc, dice, moment, fetch),
        _ => response(alloc, dice, moment, fetch),
    }
}

fn marker(
    alloc: Global,
    dice: &mut Dice,
    moment: u64,
    fetch: &Opened,
) -> Result<String, AllocError> {
    let (token, key) = (fetch.token, fetch.key);
    let kind = dice.one_of(&["hit_for_miss", "hit_for_pass"]);
    let ttl = dice.below(1500);
    format!(in alloc; "insert token={token} key={key} {kind} origin={moment} ttl={ttl}")
}

fn response(
    alloc: Global,
    dice: &mut Dice,
    moment: u64,
    fetch: &Opened,
) -> Result<String, AllocError> {
    let (token, key) = (fetch.token, fetch.key);
    let stale = stale_of(alloc, dice, fetch)?;
    let tags = dice.one_of(&TAGS);
    let (ttl, grace, keep) = (dice.below(600), dice.below(1500), dice.below(300));
    let bytes = bytes_of(dice);
    let origin = origin_of(dice, moment);
    let other = dice.one_of(&["", "vary=1", "vary=2", "etag:e", "always"]);
    let field = dice.one_of(&["d:1", "f:1", "d:0"]);
    format!(in alloc;
        "insert token={token} key={key} origin={origin} ttl={ttl} grace={grace} keep={keep} bytes={bytes} xkeys={tags} {field} {other}{stale}"
    )
}

// At times more than a room of 20,000 bytes has.
fn bytes_of(dice: &mut Dice) -> u64 {
    if dice.below(4) == 0 {
        return 30_000;
    }
    dice.below(6000)
}

// At times so early that the object isn't in time any more.
fn origin_of(dice: &mut Dice, moment: u64) -> u64 {
    if dice.below(6) == 0 {
        return moment.saturating_sub(2000);
    }
    moment
}

// The stale object of the fetch, or another number at times.
fn stale_of(alloc: Global, dice: &mut Dice, fetch: &Opened) -> Result<String, AllocError> {
    let other = dice.below(200);
    match fetch.stale {
        Some(number) => format!(in alloc; " stale={number}"),
        None if dice.below(5) == 0 => format!(in alloc; " stale={other}"),
        None => Ok(String::new(alloc)),
    }
}

fn words_of(
    alloc: Global,
    dice: &mut Dice,
    roll: u64,
    key: &'static str,
) -> Result<String, AllocError> {
    match roll {
        0..=9 => format!(in alloc; "begin"),
        10..=12 => format!(in alloc; "end"),
        13..=15 => format!(in alloc; "draw"),
        16..=50 => lookup(alloc, dice, key),
        68..=72 => ban(alloc, dice),
        73..=74 => format!(in alloc; "ban_list"),
        75..=77 => format!(in alloc; "purge key={key}"),
        78..=81 => xkey(alloc, dice),
        82..=86 => backend(alloc, dice),
        87..=97 => vcl(alloc, dice),
        _ => format!(in alloc; "vcl_list"),
    }
}

fn lookup(alloc: Global, dice: &mut Dice, key: &'static str) -> Result<String, AllocError> {
    let value = dice.one_of(&["1", "2"]);
    let field = dice.one_of(&["b:1", "c:1", "b:0", "c:0"]);
    let option = dice.one_of(&[
        "",
        "",
        "",
        "",
        "always_miss",
        "ignore_busy",
        "ignore_vary",
        "grace=50",
    ]);
    format!(in alloc; "lookup key={key} X:{value} {field} {option}")
}

fn ban(alloc: Global, dice: &mut Dice) -> Result<String, AllocError> {
    let condition = dice.one_of(&[
        "request=b",
        "request=c",
        "object=d",
        "object=f",
        "object=z",
        "ttl_over=300",
    ]);
    format!(in alloc; "ban {condition}")
}

fn xkey(alloc: Global, dice: &mut Dice) -> Result<String, AllocError> {
    let tags = dice.one_of(&TAGS);
    let kind = dice.one_of(&["", "soft", "soft"]);
    format!(in alloc; "xkey keys={tags} {kind}")
}

fn backend(alloc: Global, dice: &mut Dice) -> Result<String, AllocError> {
    let name = dice.one_of(&["a", "b", "z"]);
    let health = dice.one_of(&["sick", "healthy", "auto"]);
    let word = dice.below(1000);
    let kind = dice.one_of(&["round_robin", "fallback", "random", "hash", "one"]);
    let members = dice.one_of(&["a:1", "b:2", "a:1,b:2", "-"]);
    if dice.below(3) == 0 {
        format!(in alloc; "set_health name={name} {health}")
    } else {
        format!(in alloc; "pick vcl=1 kind={kind} name=d members={members} word={word}")
    }
}

fn vcl(alloc: Global, dice: &mut Dice) -> Result<String, AllocError> {
    let name = dice.one_of(&NAMES);
    let call = dice.one_of(&["load", "switch", "discard"]);
    format!(in alloc; "{call} name={name}")
}
