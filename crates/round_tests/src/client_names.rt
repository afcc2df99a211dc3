// What is shown of where a client's round stands.
use cache_law::Call;
use client_graph::{ClientWant, KeyUse, Next, State, ask};
use std::alloc::{AllocError, Global};

fn name_of(state: &State) -> &'static str {
    match state {
        State::Recv => "vcl_recv",
        State::Hash(KeyUse::Lookup) => "vcl_hash",
        State::Hash(KeyUse::Purge) => "vcl_hash for a purge",
        State::Purge => "vcl_purge",
        State::Hit(_) => "vcl_hit",
        State::Miss(_) => "vcl_miss",
        State::Pass => "vcl_pass",
        State::Deliver(_) => "vcl_deliver",
        State::Synth => "vcl_synth",
    }
}

fn name_of_call(call: &Call) -> &'static str {
    match call {
        Call::Lookup(_) => "lookup",
        Call::Purge { .. } => "purge",
        Call::Drop { .. } => "drop",
        Call::Draw => "draw",
        Call::End => "end",
        _ => "another call",
    }
}

fn name_of_want(want: &ClientWant) -> &'static str {
    match want {
        ClientWant::Cache(call) => name_of_call(call),
        ClientWant::Fetch(_) => "fetch",
        ClientWant::Background(_) => "background",
        ClientWant::Send(_) => "send",
        ClientWant::Done => "done",
    }
}

fn want_shown(alloc: Global, want: &ClientWant) -> Result<String, AllocError> {
    let name = name_of_want(want);
    format!(in alloc; "{name}")
}

fn shown_of(alloc: Global, next: &Next) -> Result<String, AllocError> {
    match next {
        Next::Enter { state, .. } => {
            let name = name_of(state);
            format!(in alloc; "{name}")
        }
        Next::Rest { point, round } => want_shown(alloc, &ask(alloc, None, round, point)?),
    }
}

/// The subroutine that runs, or what is wanted.
pub fn shown(alloc: Global, next: Next) -> Result<String, AllocError> {
    shown_of(alloc, &next)
}
