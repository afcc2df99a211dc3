// Arrows of a client's round from the end of a subroutine.
use crate::client_names::shown;
use crate::client_places::{begun, found, held, unlike};
use crate::heads::GET;
use client_graph::{KeyUse, Next, State, lead};
use delivery::ResponseBody;
use std::alloc::{AllocError, Global};
use units::Text;
use vcl_context::Return;

/// Where a word of `return` leads from a subroutine, in a round that was restarted so often.
pub fn lead_shown(alloc: Global, words: &str) -> Result<String, AllocError> {
    let (state, rest) = words.split_once(' ').unwrap_or((words, ""));
    let (word, restarts) = rest.split_once(' ').unwrap_or((rest, "0"));
    let word = word_of(alloc, word)?;
    let state = state_of(alloc, state)?;
    let next = begun(alloc, GET, restarts.parse::<u32>().unwrap_or(0))?;
    shown(alloc, led(alloc, next, state, word)?)
}

/// The body of a response that isn't of a passed fetch.
pub fn whole_body(alloc: Global) -> Result<ResponseBody, AllocError> {
    Ok(ResponseBody {
        text: Text::of(alloc, b"hi")?,
        passed: false,
    })
}

fn state_of(alloc: Global, name: &str) -> Result<State, AllocError> {
    match name {
        "vcl_recv" => Ok(State::Recv),
        "vcl_hash" => Ok(State::Hash(KeyUse::Lookup)),
        "vcl_hash:purge" => Ok(State::Hash(KeyUse::Purge)),
        "vcl_purge" => Ok(State::Purge),
        "vcl_pass" => Ok(State::Pass),
        "vcl_deliver" => Ok(State::Deliver(whole_body(alloc)?)),
        "vcl_synth" => Ok(State::Synth),
        _ => state_with(alloc, name),
    }
}

// A state that keeps an object or a fetch.
fn state_with(alloc: Global, name: &str) -> Result<State, AllocError> {
    match name {
        "vcl_hit" => Ok(State::Hit(found(alloc, None)?)),
        "vcl_hit:token" => Ok(State::Hit(found(alloc, Some(held(alloc)?))?)),
        _ => Ok(State::Miss(held(alloc)?)),
    }
}

fn word_of(alloc: Global, name: &str) -> Result<Return, AllocError> {
    match name {
        "hash" => Ok(Return::Hash),
        "pass" => Ok(Return::Pass),
        "purge" => Ok(Return::Purge),
        "restart" => Ok(Return::Restart),
        "synth" => Ok(Return::Synth(404, Text::of(alloc, b"No")?)),
        "lookup" => Ok(Return::Lookup),
        "deliver" => Ok(Return::Deliver),
        "fetch" => Ok(Return::Fetch),
        _ => Ok(Return::Fail),
    }
}

fn led(alloc: Global, next: Next, state: State, word: Return) -> Result<Next, AllocError> {
    match next {
        Next::Enter {
            state: first,
            context,
            round,
        } => {
            drop(first);
            lead(alloc, state, word, context, round)
        }
        other => Ok(unlike((state, word), other)),
    }
}
