// What is sent of a hit.
use crate::client_answers::looked_up;
use client_graph::{ClientWant, Next, ask, lead};
use delivery::print_delivery;
use std::alloc::{AllocError, Global};
use vcl_context::Return;

/// What is sent of a hit at 3000 to a request of this method and version: `vcl_hit` and `vcl_deliver` end with `deliver`.
pub fn hit_shown(alloc: Global, words: &str) -> Result<String, AllocError> {
    let (method, version) = words.split_once(' ').unwrap_or((words, ""));
    let minor = if version == "10" { 0 } else { 1 };
    let text = format!(in alloc; "{method} /a HTTP/1.{minor}\r\nHost: h\r\n\r\n")?;
    let next = looked_up(alloc, "hit", text.as_bytes())?;
    let next = delivered(alloc, next)?;
    let next = delivered(alloc, next)?;
    sent_shown(alloc, &next)
}

// Where it leads that the subroutine ends with `deliver`.
fn delivered(alloc: Global, next: Next) -> Result<Next, AllocError> {
    match next {
        Next::Enter {
            state,
            context,
            round,
        } => lead(alloc, state, Return::Deliver, context, round),
        other => Ok(other),
    }
}

fn sent_shown(alloc: Global, next: &Next) -> Result<String, AllocError> {
    match next {
        Next::Rest { point, round } => want_shown(alloc, &ask(alloc, None, round, point)?),
        Next::Enter { .. } => format!(in alloc; "a subroutine runs"),
    }
}

fn want_shown(alloc: Global, want: &ClientWant) -> Result<String, AllocError> {
    match want {
        ClientWant::Send(sent) => {
            let text = print_delivery(alloc, sent)?;
            format!(in alloc; "{text:?}")
        }
        _ => format!(in alloc; "nothing is sent"),
    }
}
