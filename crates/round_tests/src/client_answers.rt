// Arrows of a client's round from what is answered and given.
use crate::client_names::shown;
use crate::client_places::{begun, held, object, unlike};
use crate::client_words::whole_body;
use crate::heads::{GET, query};
use cache_law::rounds::{FetchOutcome, Given};
use cache_law::{Query, Reply, Told};
use client_graph::{FetchKind, HeldFetch, Next, State, WaitPoint, take};
use delivery::ResponseBody;
use std::alloc::{AllocError, Global};
use std::mem;
use units::Shared;
use vcl_context::Context;

fn told(reply: Reply) -> Given {
    Given::Reply(Told {
        moment: 3_000,
        place: 0,
        reply,
    })
}

fn reply_of(alloc: Global, name: &str) -> Result<Reply, AllocError> {
    match name {
        "hit" => Ok(Reply::Hit(object(alloc)?)),
        "grace" => Ok(Reply::Grace {
            object: object(alloc)?,
            token: Some(7),
        }),
        "miss" => Ok(Reply::Miss {
            token: 7,
            stale: None,
        }),
        "hit_miss" => Ok(Reply::HitMiss { token: 7 }),
        "hit_pass" => Ok(Reply::HitPass),
        "wait" => Ok(Reply::Wait(5)),
        _ => Ok(Reply::NoRound),
    }
}

/// The round of this request behind the answer of this name to its lookup at 3000.
pub fn looked_up(alloc: Global, name: &str, text: &[u8]) -> Result<Next, AllocError> {
    let given = told(reply_of(alloc, name)?);
    let query = Shared::new(alloc, query(alloc, GET)?)?;
    let next = begun(alloc, text, 0)?;
    answered(alloc, query, given, next)
}

fn answered(
    alloc: Global,
    query: Shared<Query>,
    given: Given,
    next: Next,
) -> Result<Next, AllocError> {
    match next {
        Next::Enter {
            state,
            context,
            round,
        } => {
            drop(state);
            take(alloc, WaitPoint::Look { query, context }, given, round)
        }
        other => Ok(unlike((query, given), other)),
    }
}

/// Where the answer to a lookup leads.
pub fn lookup_shown(alloc: Global, name: &str) -> Result<String, AllocError> {
    shown(alloc, looked_up(alloc, name, GET)?)
}

/// Where it leads what is given at another place.
pub fn given_shown(alloc: Global, name: &str) -> Result<String, AllocError> {
    match name {
        "fetched" | "not_fetched" | "fetched_behind" => fetched_shown(alloc, name),
        _ => answer_shown(alloc, name),
    }
}

fn answer_of(name: &str) -> Given {
    match name {
        "purged" => told(Reply::Purged(3)),
        "dropped" => told(Reply::Dropped),
        "drawn" => told(Reply::Drawn(8)),
        "failed" => Given::Sent,
        _ => told(Reply::Ended),
    }
}

fn point_of(name: &str, context: Context) -> WaitPoint {
    match name {
        "purged" => WaitPoint::Purge { context },
        "dropped" => WaitPoint::Drop {
            token: 7,
            state: State::Pass,
            context,
        },
        "drawn" => WaitPoint::Draw { context },
        "failed" => WaitPoint::Fail { context },
        _ => WaitPoint::End,
    }
}

fn answer_shown(alloc: Global, name: &str) -> Result<String, AllocError> {
    let next = begun(alloc, GET, 0)?;
    shown(alloc, given(alloc, name, next)?)
}

fn given(alloc: Global, name: &str, next: Next) -> Result<Next, AllocError> {
    match next {
        Next::Enter {
            state,
            context,
            round,
        } => {
            drop(state);
            take(alloc, point_of(name, context), answer_of(name), round)
        }
        other => Ok(other),
    }
}

fn outcome_of(alloc: Global, name: &str) -> Result<Given, AllocError> {
    match name {
        "fetched" => Ok(Given::Fetched(FetchOutcome::Delivered {
            object: object(alloc)?,
            moment: 3_000,
            uncacheable: false,
        })),
        "not_fetched" => Ok(Given::Fetched(FetchOutcome::Failed)),
        _ => Ok(Given::Fetched(FetchOutcome::Ended)),
    }
}

// A fetch that the client waits for, or one behind its response.
fn fetch_of(name: &str, held: HeldFetch, context: Context) -> WaitPoint {
    if name == "fetched_behind" {
        WaitPoint::Background { held, context }
    } else {
        WaitPoint::Fetch {
            kind: FetchKind::Store(held),
            context,
        }
    }
}

fn fetched_shown(alloc: Global, name: &str) -> Result<String, AllocError> {
    let given = outcome_of(alloc, name)?;
    let held = held(alloc)?;
    let next = begun(alloc, GET, 0)?;
    shown(alloc, fetched(alloc, name, held, given, next)?)
}

fn fetched(
    alloc: Global,
    name: &str,
    held: HeldFetch,
    given: Given,
    next: Next,
) -> Result<Next, AllocError> {
    match next {
        Next::Enter {
            state,
            context,
            round,
        } => {
            drop(state);
            take(alloc, fetch_of(name, held, context), given, round)
        }
        other => Ok(unlike((held, given), other)),
    }
}

/// Where it leads that a response is sent, where a fetch is kept for later.
pub fn sent_shown(alloc: Global) -> Result<String, AllocError> {
    let held = held(alloc)?;
    let body = whole_body(alloc)?;
    let next = begun(alloc, GET, 0)?;
    shown(alloc, sent(alloc, held, body, next)?)
}

fn sent(
    alloc: Global,
    held: HeldFetch,
    body: ResponseBody,
    next: Next,
) -> Result<Next, AllocError> {
    match next {
        Next::Enter {
            state,
            context,
            mut round,
        } => {
            drop(state);
            drop(mem::replace(&mut round.background, Some(held)));
            take(alloc, WaitPoint::Send { context, body }, Given::Sent, round)
        }
        other => Ok(unlike((held, body), other)),
    }
}
