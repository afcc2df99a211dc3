// What is shown of where a fetch stands.
use cache_law::rounds::FetchOutcome;
use cache_law::{Call, Object};
use fetch_graph::{FetchWant, Next, State, WaitPoint};
use http_heads::print_request;
use std::alloc::{AllocError, Global};

fn name_of_object(object: &Object) -> &'static str {
    match object {
        Object::Ordinary(_) => "insert whole",
        Object::HitForMiss(_) => "insert hit-for-miss",
        Object::HitForPass(_) => "insert hit-for-pass",
    }
}

fn name_of_point(point: &WaitPoint) -> &'static str {
    match point {
        WaitPoint::Pick { .. } => "pick",
        WaitPoint::Ask { .. } => "ask",
        WaitPoint::Insert { insertion, .. } => name_of_object(&insertion.object),
        WaitPoint::Drop => "drop",
        WaitPoint::Over(FetchOutcome::Delivered { .. }) => "delivered",
        WaitPoint::Over(FetchOutcome::Failed) => "failed",
        WaitPoint::Over(FetchOutcome::Ended) => "ended",
    }
}

fn name_of_state(state: &State) -> &'static str {
    match state {
        State::Request => "vcl_backend_fetch",
        State::Response(_) => "vcl_backend_response",
        State::Error { .. } => "vcl_backend_error",
    }
}

fn name_of(next: &Next) -> &'static str {
    match next {
        Next::Enter { state, .. } => name_of_state(state),
        Next::Rest { point, .. } => name_of_point(point),
    }
}

/// The subroutine that runs, or where the fetch rests.
pub fn shown(alloc: Global, next: Next) -> Result<String, AllocError> {
    let name = name_of(&next);
    drop(next);
    format!(in alloc; "{name}")
}

/// The request that is wanted, or the number of the fetch whose object is handed over, and of the one whose place that takes.
pub fn want_shown(alloc: Global, want: &FetchWant) -> Result<String, AllocError> {
    match want {
        FetchWant::Ask { request, .. } => {
            let text = print_request(alloc, &request.head)?;
            format!(in alloc; "{text:?}")
        }
        FetchWant::Cache(Call::Insert { token, stale, .. }) => {
            format!(in alloc; "insert {token} {stale:?}")
        }
        _ => format!(in alloc; "another want"),
    }
}
