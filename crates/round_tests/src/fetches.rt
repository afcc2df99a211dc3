// The states of fetches by their tables.
use crate::fetch_names::{shown, want_shown};
use crate::heads::{GET, PEER, query, request};
use cache_law::rounds::{Given, Order};
use cache_law::{Query, Reply, Told};
use directors::{DirectorKind, Target};
use fetch_graph::{Arrived, Next, State, WaitPoint, ask, lead, open, take};
use std::alloc::{AllocError, Global};
use units::{Sequence, Shared, Text};
use vcl_context::Return;

/// What is said of the row.
pub fn fetch_shown(alloc: Global, row: &str) -> Result<String, AllocError> {
    let (word, rest) = row.split_once(' ').unwrap_or((row, ""));
    match word {
        "lead" => lead_shown(alloc, rest),
        "pick" => pick_shown(alloc, rest),
        "ask" => wanted_shown(alloc, asking(begun(alloc, "stored")?)),
        _ => inserted_shown(alloc),
    }
}

// What may be stored is looked up; what is passed isn't.
fn looked(alloc: Global, standing: &str) -> Result<Option<Shared<Query>>, AllocError> {
    match standing {
        "passed" => Ok(None),
        _ => Ok(Some(Shared::new(alloc, query(alloc, GET)?)?)),
    }
}

// The fetch numbered 2.
fn order(alloc: Global, standing: &str) -> Result<Order, AllocError> {
    let request = request(alloc, GET, b"")?;
    let hint_text = Text::of(alloc, b"")?;
    let looked = looked(alloc, standing)?;
    Ok(Order {
        number: 2,
        vcl: 1,
        peer: PEER,
        request,
        hint: None,
        hint_text,
        looked,
        stale: None,
        background: standing == "behind",
        moment: 1_000,
    })
}

fn begun(alloc: Global, standing: &str) -> Result<Next, AllocError> {
    open(alloc, order(alloc, standing)?)
}

// What doesn't fit where the fetch stands is let go.
fn unlike<V: Drop>(_held: V, next: Next) -> Next {
    next
}

fn state_of(alloc: Global, name: &str) -> Result<State, AllocError> {
    match name {
        "vcl_backend_fetch" => Ok(State::Request),
        "vcl_backend_response" => Ok(State::Response(Arrived {
            body: Text::of(alloc, b"hi")?,
            origin: 0,
        })),
        _ => Ok(State::Error { origin: 0 }),
    }
}

fn word_of(name: &str) -> Return {
    match name {
        "fetch" => Return::Fetch,
        "deliver" => Return::Deliver,
        "pass" => Return::PassFor(9),
        "retry" => Return::Retry,
        _ => Return::Abandon,
    }
}

// Where a word of `return` leads from a subroutine. The fetch may be one of what is stored, of what isn't to be stored, of what is
// passed, or behind a response; or it was tried so often that one more try is made, or none.
fn lead_shown(alloc: Global, row: &str) -> Result<String, AllocError> {
    let (standing, words) = row.split_once(' ').unwrap_or((row, ""));
    let (name, word) = words.split_once(' ').unwrap_or((words, ""));
    let state = state_of(alloc, name)?;
    let next = begun(alloc, standing)?;
    shown(alloc, led(alloc, standing, state, word, next)?)
}

fn led(
    alloc: Global,
    standing: &str,
    state: State,
    word: &str,
    next: Next,
) -> Result<Next, AllocError> {
    match next {
        Next::Enter {
            state: first,
            mut context,
            mut fetch,
        } => {
            drop(first);
            context.fetch_response.uncacheable = standing == "uncacheable" || standing == "passed";
            fetch.retries = retries_of(standing);
            lead(alloc, state, word_of(word), context, fetch)
        }
        other => Ok(unlike(state, other)),
    }
}

fn retries_of(standing: &str) -> u32 {
    match standing {
        "tried" => 3,
        "tried_out" => 4,
        _ => 0,
    }
}

fn picked(alloc: Global, name: &str) -> Result<Given, AllocError> {
    let name = match name {
        "healthy" => Some(Text::of(alloc, b"default")?),
        _ => None,
    };
    Ok(Given::Reply(Told {
        moment: 5_000,
        place: 0,
        reply: Reply::Picked(name),
    }))
}

// Where the answer to a pick leads.
fn pick_shown(alloc: Global, name: &str) -> Result<String, AllocError> {
    let given = picked(alloc, name)?;
    let next = begun(alloc, "stored")?;
    shown(alloc, answered(alloc, given, next)?)
}

fn answered(alloc: Global, given: Given, next: Next) -> Result<Next, AllocError> {
    match next {
        Next::Enter {
            state,
            context,
            fetch,
        } => {
            drop(state);
            take(alloc, WaitPoint::Pick { context }, given, fetch)
        }
        other => Ok(unlike(given, other)),
    }
}

// Where its request is sent.
fn asking(next: Next) -> Next {
    match next {
        Next::Enter {
            state,
            context,
            fetch,
        } => {
            drop(state);
            Next::Rest {
                point: WaitPoint::Ask { context },
                fetch,
            }
        }
        other => other,
    }
}

fn target(alloc: Global) -> Result<Target, AllocError> {
    Ok(Target {
        kind: DirectorKind::One,
        name: Text::of(alloc, b"default")?,
        members: Sequence::new(alloc),
    })
}

// What is wanted where the fetch rests.
fn wanted_shown(alloc: Global, next: Next) -> Result<String, AllocError> {
    match &next {
        Next::Rest { point, fetch } => {
            let target = target(alloc)?;
            let want = ask(alloc, target, 9, fetch, point)?;
            want_shown(alloc, &want)
        }
        Next::Enter { .. } => format!(in alloc; "a subroutine runs"),
    }
}

// Where what was made is handed over.
fn inserted_shown(alloc: Global) -> Result<String, AllocError> {
    let next = begun(alloc, "stored")?;
    let state = State::Error { origin: 0 };
    let next = led(alloc, "stored", state, "deliver", next)?;
    wanted_shown(alloc, next)
}
