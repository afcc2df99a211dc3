// The open rounds and fetches: the law's tests of them, and the changes that it makes.
ghost use Rattle.std.specs.Prelude.{◌≡◌, ◌==◌, ◌+◌, ◌^◌, ◌<◌, ◌∷◌, ◌++◌, find, Some, None, length, filter, option_and_then, OnOk, OnErr, if◌then◌else◌};
ghost use Rattle.std.specs.Option.{option_copied};
ghost use Rattle.cache_law.specs.State.{has_round, has_fetch, is_closed, is_open, least_of, least_token, least_with, remembering, told_to_wait, with_wait, without_fetch, without_fetches_of, without_round_of};
ghost use Rattle.cache_desk.specs.Opening.{next_after, opened_for, without_newest};

use cache_law::{OpenFetch, OpenRound};
use std::alloc::{AllocError, Global};
use std::collections::VecDeque;
use units::{Copied, Sequence, Text};

/// Whether a round of the caller is open.
pub(crate) fn has_round(rounds: &VecDeque<OpenRound>, caller: u32) -> bool
    ensures { result ≡ has_round rounds.now.items caller }
{
    rounds.iter().any(|round| round.caller == caller)
}

/// Whether a fetch of this number is open for the caller.
pub(crate) fn has_fetch(fetches: &VecDeque<OpenFetch>, caller: u32, token: u64) -> bool
    ensures { result ≡ has_fetch fetches.now.items caller token }
{
    fetches
        .iter()
        .any(|fetch| fetch.token == token && fetch.caller == caller)
}

/// Whether a fetch of this number is open.
fn is_open(fetches: &VecDeque<OpenFetch>, token: u64) -> bool
    ensures { result ≡ is_open fetches.now.items token }
{
    fetches.iter().any(|fetch| fetch.token == token)
}

/// Whether no open fetch has the number.
pub(crate) fn is_closed(fetches: &VecDeque<OpenFetch>, token: u64) -> bool
    ensures { result ≡ is_closed fetches.now.items token }
{
    !is_open(fetches, token)
}

/// The least of a number and of another that may be known.
pub fn least_of(token: u64, known: Option<u64>) -> u64
    ensures { result ≡ least_of token known }
{
    match known {
        Some(known) => token.min(known),
        None => token,
    }
}

fn least_with(key: &[Text], known: Option<u64>, fetch: &OpenFetch) -> Option<u64>
    ensures { result ≡ least_with key.now known fetch.now }
{
    if fetch.key.as_slice() == key {
        Some(least_of(fetch.token, known))
    } else {
        known
    }
}

/// The least token of the open fetches of a key.
pub(crate) fn least_token(fetches: &VecDeque<OpenFetch>, key: &[Text]) -> Option<u64>
    ensures { result ≡ least_token key.now fetches.now.items }
{
    fetches
        .iter()
        .fold(None, |known, fetch| least_with(key, known, fetch))
}

fn round_among(rounds: &[OpenRound], caller: u32) -> Option<&OpenRound>
    ensures { option_copied result ≡ find (λ round. round.caller == caller) rounds.now }
{
    rounds.iter().find(|round| round.caller == caller)
}

/// The caller's round in one list, and else in the other.
fn round_of<'a>(
    newer: &'a [OpenRound],
    older: &'a [OpenRound],
    caller: u32,
) -> Option<&'a OpenRound>
    ensures { option_copied result ≡ find (λ round. round.caller == caller) (newer.now ++ older.now) }
{
    match round_among(newer, caller) {
        Some(round) => Some(round),
        None => round_among(older, caller),
    }
}

fn waits_in(round: Option<&OpenRound>) -> Option<u64>
    ensures { result ≡ option_and_then (λ one. one.waits) (option_copied round.entry) }
{
    match round {
        Some(round) => round.waits,
        None => None,
    }
}

/// The token that the caller's newest lookup in its open round was told to wait for.
fn told_to_wait(rounds: &VecDeque<OpenRound>, caller: u32) -> Option<u64>
    ensures { result ≡ told_to_wait rounds.now.items caller }
{
    let (newer, older) = rounds.as_slices();
    let round = round_of(newer, older, caller);
    waits_in(round)
}

/// The same, while its fetch is open.
pub(crate) fn awaits(
    rounds: &VecDeque<OpenRound>,
    fetches: &VecDeque<OpenFetch>,
    caller: u32,
) -> Option<u64>
    ensures { result ≡ option_and_then (λ token. if is_open fetches.now.items token then Some token else None) (told_to_wait rounds.now.items caller) }
{
    let token = told_to_wait(rounds, caller)?;
    if is_open(fetches, token) {
        Some(token)
    } else {
        None
    }
}

/// The round remembers what its caller was told to wait for.
fn remembering(caller: u32, token: Option<u64>, round: OpenRound) -> OpenRound
    ensures { result ≡ remembering caller token round }
{
    if round.caller == caller {
        OpenRound {
            waits: token,
            ..round
        }
    } else {
        round
    }
}

/// The caller's round remembers what it was told to wait for.
pub(crate) fn remember(rounds: &mut VecDeque<OpenRound>, caller: u32, token: Option<u64>)
    ensures { rounds.new.items ≡ with_wait caller token rounds.old.items }
{
    for place in 0..rounds.len() {
        rounds[place] = remembering(caller, token, rounds[place]);
    }
}

/// Opens a fetch of the key.
fn open_fetch(
    alloc: Global,
    fetches: &mut VecDeque<OpenFetch>,
    token: u64,
    caller: u32,
    key: &Sequence<Text>,
) -> Result<(), AllocError>
    ensures ok { OnOk result (fetches.new.items ≡ record { token = token; caller = caller; key = key.now } ∷ fetches.old.items) }
    ensures err { OnErr result (fetches.new.items ≡ fetches.old.items) }
{
    let key = key.copied(alloc)?;
    fetches.push_front(OpenFetch { token, caller, key })?;
    Ok(())
}

/// Opens a fetch of the key, if one is to be opened.
pub(crate) fn open_fetch_if(
    alloc: Global,
    fetches: &mut VecDeque<OpenFetch>,
    opens: bool,
    token: u64,
    caller: u32,
    key: &Sequence<Text>,
) -> Result<(), AllocError>
    ensures ok { OnOk result (fetches.new.items ≡ opened_for opens token caller key.now fetches.old.items) }
    ensures err { OnErr result (fetches.new.items ≡ fetches.old.items) }
{
    if opens {
        open_fetch(alloc, fetches, token, caller, key)?;
    }
    Ok(())
}

/// Closes the fetch that was opened last, if one was.
pub(crate) fn close_newest_if(fetches: &mut VecDeque<OpenFetch>, opened: bool)
    ensures { fetches.new.items ≡ without_newest opened fetches.old.items }
{
    if opened {
        drop(fetches.pop_front());
    }
}

/// The next number, where one is drawn or not.
pub(crate) fn next_after(opens: bool, next: u64) -> u64
    requires { next + 1 < 2 ^ 64 }
    ensures { result ≡ next_after opens next }
{
    if opens { next + 1 } else { next }
}

pub(crate) fn close_fetch(fetches: &mut VecDeque<OpenFetch>, token: u64)
    ensures { fetches.new.items ≡ without_fetch token fetches.old.items }
{
    fetches.retain(|fetch| fetch.token != token);
}

pub(crate) fn close_fetches_of(fetches: &mut VecDeque<OpenFetch>, caller: u32)
    ensures { fetches.new.items ≡ without_fetches_of caller fetches.old.items }
{
    fetches.retain(|fetch| fetch.caller != caller);
}

pub(crate) fn close_round_of(rounds: &mut VecDeque<OpenRound>, caller: u32)
    ensures { rounds.new.items ≡ without_round_of caller rounds.old.items }
{
    rounds.retain(|round| round.caller != caller);
}

/// How many fetches there are beside that of this number.
pub(crate) fn count_without(fetches: &VecDeque<OpenFetch>, token: u64) -> usize
    ensures { result ≡ length (without_fetch token fetches.now.items) }
{
    fetches.iter().filter(|fetch| fetch.token != token).count()
}

pub(crate) fn count_fetches_without(fetches: &VecDeque<OpenFetch>, caller: u32) -> usize
    ensures { result ≡ length (without_fetches_of caller fetches.now.items) }
{
    fetches
        .iter()
        .filter(|fetch| fetch.caller != caller)
        .count()
}

pub(crate) fn count_rounds_without(rounds: &VecDeque<OpenRound>, caller: u32) -> usize
    ensures { result ≡ length (without_round_of caller rounds.now.items) }
{
    rounds.iter().filter(|round| round.caller != caller).count()
}
