// Where a subroutine's word leads.
ghost use Rattle.std.specs.Prelude.{◌≡◌, ◌<◌, IfOk};
ghost use Rattle.fetch_graph.specs.Graph.{subroutine_of, enter as entered, erring, failing, without_response, may_retry as may, fetch_again, fetch_again_if as retries_if, last_retry as last_next, kept_by as kept_of, deliver_as, made_at as made_with, behind_request, behind_response, behind_error, leads};
ghost use Rattle.vcl_context.specs.Initial.{status_or_503 as status_given};

use crate::contexts::{response_at, set_response, set_tries};
use crate::keeping::{deliver, kept_by, nothing};
use crate::opening::purpose_of;
use crate::{Arrived, Fetch, Next, State, StoreAs, WaitPoint};
use backend_request::{error_head, timed};
use delivery::Failure;
use std::alloc::{AllocError, Global};
use units::{Text, out_of_memory};
use vcl_context::{Context, Return, body_or_empty, status_or_503, uncount};
use vcl_language::Subroutine;

/// A fetch is tried again at most so often.
pub const MAX_RETRIES: u32 = 4;

impl State {
    /// The subroutine that runs in it.
    pub fn subroutine(&self) -> Subroutine
        ensures { result ≡ subroutine_of self.now }
    {
        match self {
            State::Request => Subroutine::BackendFetch,
            State::Response(_) => Subroutine::BackendResponse,
            State::Error { .. } => Subroutine::BackendError,
        }
    }
}

/// The subroutine of a state runs, with no statement counted.
pub(crate) fn enter(state: State, mut context: Context, fetch: Fetch) -> Next
    ensures { result ≡ entered state context fetch }
{
    uncount(&mut context);
    Next::Enter {
        state,
        context,
        fetch,
    }
}

// vcl_backend_error makes the response.
#[tactic(auto, unfolding(crate::specs::Graph::erring))]
fn err(
    alloc: Global,
    status: u16,
    reason: Text,
    mut context: Context,
    fetch: Fetch,
) -> Result<Next, AllocError>
    ensures { IfOk result (λ next. next ≡ erring status reason context fetch) }
{
    let head = error_head(alloc, status, reason);
    let timing = timed(
        purpose_of(&fetch.order.looked),
        status,
        &head.fields,
        fetch.moment,
    );
    let uncacheable = context.fetch_request.uncacheable;
    let Ok(response) = response_at(
        head,
        timing,
        fetch.moment,
        uncacheable,
        false,
        &fetch.picked,
    ) else {
        return Err(out_of_memory((context, fetch)));
    };
    set_response(response, &mut context);
    let state = State::Error {
        origin: timing.origin,
    };
    Ok(enter(state, context, fetch))
}

// vcl_backend_error makes the response of a status that VCL gave.
fn err_with(
    alloc: Global,
    status: i64,
    reason: Text,
    context: Context,
    fetch: Fetch,
) -> Result<Next, AllocError>
    ensures { IfOk result (λ next. next ≡ erring (status_given status) reason context fetch) }
{
    let status = status_or_503(status);
    err(alloc, status, reason, context, fetch)
}

/// No response could be had.
pub(crate) fn fail(alloc: Global, context: Context, fetch: Fetch) -> Result<Next, AllocError>
    ensures { IfOk result (λ next. next ≡ failing context fetch) }
{
    let Ok(reason) = Text::of(alloc, Failure::FetchFailed.reason()) else {
        return Err(out_of_memory((context, fetch)));
    };
    err(alloc, 503, reason, context, fetch)
}

/// The fetch is given up: what opened it is closed, if it was a lookup, and nothing came of it.
pub fn abandon(fetch: Fetch) -> Next
    ensures { result ≡ without_response fetch }
{
    let point = match &fetch.order.looked {
        None => WaitPoint::Over(nothing(&fetch)),
        Some(_) => WaitPoint::Drop,
    };
    Next::Rest { point, fetch }
}

// The same, where more was held, which is let go.
fn give_up<V: Drop>(_held: V, fetch: Fetch) -> Next
    ensures { result ≡ without_response fetch }
{
    abandon(fetch)
}

fn may_retry(fetch: &Fetch) -> bool
    ensures { result ≡ may fetch.now }
{
    fetch.retries < MAX_RETRIES
}

fn retry(mut context: Context, mut fetch: Fetch) -> Next
    requires { fetch.retries < 4 }
    ensures { result ≡ fetch_again context fetch }
{
    fetch.retries += 1;
    set_tries(fetch.retries, &mut context);
    enter(State::Request, context, fetch)
}

// `retry` in vcl_backend_response.
fn retry_if_allowed(alloc: Global, context: Context, fetch: Fetch) -> Result<Next, AllocError>
    ensures { IfOk result (λ next. next ≡ retries_if (may fetch) context fetch) }
{
    if may_retry(&fetch) {
        Ok(retry(context, fetch))
    } else {
        fail(alloc, context, fetch)
    }
}

// `retry` in vcl_backend_error.
fn last_retry(context: Context, fetch: Fetch) -> Result<Next, AllocError>
    ensures { IfOk result (λ next. next ≡ last_next (may fetch) context fetch) }
{
    if may_retry(&fetch) {
        Ok(retry(context, fetch))
    } else {
        Ok(give_up(context, fetch))
    }
}

// What vcl_backend_error made, with its own body.
fn made_at(alloc: Global, origin: i64, context: &Context) -> Result<Arrived, AllocError>
    ensures { IfOk result (λ arrived. arrived ≡ made_with origin context.now) }
{
    Ok(Arrived {
        body: body_or_empty(alloc, &context.body)?,
        origin,
    })
}

// The response that VCL left is delivered, and kept as it says.
fn deliver_whole(
    alloc: Global,
    arrived: Arrived,
    context: Context,
    fetch: Fetch,
) -> Result<Next, AllocError>
    ensures { IfOk result (λ next. next ≡ deliver_as (kept_of context.fetch_response) arrived context fetch) }
{
    let store_as = kept_by(&context.fetch_response);
    deliver(alloc, store_as, arrived, context, fetch)
}

// The response that vcl_backend_error made is delivered.
fn deliver_error(
    alloc: Global,
    origin: i64,
    context: Context,
    fetch: Fetch,
) -> Result<Next, AllocError>
    ensures { IfOk result (λ next. next ≡ deliver_as (kept_of context.fetch_response) (made_with origin context) context fetch) }
{
    let Ok(arrived) = made_at(alloc, origin, &context) else {
        return Err(out_of_memory((context, fetch)));
    };
    deliver_whole(alloc, arrived, context, fetch)
}

fn lead_request(
    alloc: Global,
    word: Return,
    context: Context,
    fetch: Fetch,
) -> Result<Next, AllocError>
    ensures { IfOk result (λ next. next ≡ behind_request word context fetch) }
{
    match word {
        Return::Fetch => Ok(Next::Rest {
            point: WaitPoint::Pick { context },
            fetch,
        }),
        Return::Error(status, reason) => err_with(alloc, status, reason, context, fetch),
        other => Ok(give_up((other, context), fetch)),
    }
}

fn lead_response(
    alloc: Global,
    arrived: Arrived,
    word: Return,
    context: Context,
    fetch: Fetch,
) -> Result<Next, AllocError>
    ensures { IfOk result (λ next. next ≡ behind_response arrived word context fetch) }
{
    match word {
        Return::Deliver => deliver_whole(alloc, arrived, context, fetch),
        Return::PassFor(ttl) => deliver(alloc, StoreAs::HitForPass(ttl), arrived, context, fetch),
        Return::Error(status, reason) => {
            drop(arrived);
            err_with(alloc, status, reason, context, fetch)
        }
        Return::Retry => {
            drop(arrived);
            retry_if_allowed(alloc, context, fetch)
        }
        other => Ok(give_up((other, arrived, context), fetch)),
    }
}

fn lead_error(
    alloc: Global,
    origin: i64,
    word: Return,
    context: Context,
    fetch: Fetch,
) -> Result<Next, AllocError>
    ensures { IfOk result (λ next. next ≡ behind_error origin word context fetch) }
{
    match word {
        Return::Deliver => deliver_error(alloc, origin, context, fetch),
        Return::Retry => last_retry(context, fetch),
        other => Ok(give_up((other, context), fetch)),
    }
}

/// Where the word leads with which the subroutine of a state ended, by `leads` of `specs/Graph.antt`. `context` is what it
/// left.
pub fn lead(
    alloc: Global,
    state: State,
    word: Return,
    context: Context,
    fetch: Fetch,
) -> Result<Next, AllocError>
    ensures { IfOk result (λ next. next ≡ leads state word context fetch) }
{
    match state {
        State::Request => lead_request(alloc, word, context, fetch),
        State::Response(arrived) => lead_response(alloc, arrived, word, context, fetch),
        State::Error { origin } => lead_error(alloc, origin, word, context, fetch),
    }
}
