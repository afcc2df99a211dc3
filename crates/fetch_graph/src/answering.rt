// Where an answer leads.
ghost use Rattle.std.specs.Prelude.{◌≡◌, IfOk};
ghost use Rattle.backend_request.specs.Asked.{unconditional as without_conditions};
ghost use Rattle.fetch_graph.specs.Contexts.{with_head as other_head};
ghost use Rattle.fetch_graph.specs.Graph.{outcome_of as outcome_due};
ghost use Rattle.fetch_graph.specs.Answers.{over as over_next, after_choice, after_pick as picked_next, responding, after_receipt as arrived_next, after_exchange, after_insertion, takes};

use crate::contexts::{response_at, set_head, set_response};
use crate::keeping::{nothing, outcome_of};
use crate::leading::{enter, fail};
use crate::opening::{content_of, purpose_of};
use crate::{Arrived, Fetch, Insertion, Next, State, WaitPoint};
use backend_request::{Received, receive, timed, unconditional};
use cache_law::Reply;
use cache_law::rounds::Given;
use http_heads::{Exchange, ResponseHead};
use std::alloc::{AllocError, Global};
use std::mem;
use units::{Copied, Text, out_of_memory};
use vcl_context::Context;

// What can't be answered here ends the fetch. What else was held is let go.
fn over<V: Drop>(_held: V, fetch: Fetch) -> Next
    ensures { result ≡ over_next fetch }
{
    Next::Rest {
        point: WaitPoint::Over(nothing(&fetch)),
        fetch,
    }
}

// A backend is asked, or none is healthy.
fn choose(
    alloc: Global,
    name: Option<Text>,
    context: Context,
    moment: u64,
    mut fetch: Fetch,
) -> Result<Next, AllocError>
    ensures { IfOk result (λ next. next ≡ after_choice name context moment fetch) }
{
    fetch.moment = moment;
    match name {
        Some(name) => {
            drop(mem::replace(&mut fetch.picked, Some(name)));
            Ok(Next::Rest {
                point: WaitPoint::Ask { context },
                fetch,
            })
        }
        None => fail(alloc, context, fetch),
    }
}

fn picked(
    alloc: Global,
    context: Context,
    moment: u64,
    reply: Reply,
    fetch: Fetch,
) -> Result<Next, AllocError>
    ensures { IfOk result (λ next. next ≡ picked_next context moment reply fetch) }
{
    match reply {
        Reply::Picked(name) => choose(alloc, name, context, moment, fetch),
        other => Ok(over((other, context), fetch)),
    }
}

// vcl_backend_response begins with what was received.
#[tactic(auto, unfolding(crate::specs::Answers::responding))]
fn respond(response: Received, mut context: Context, fetch: Fetch) -> Result<Next, AllocError>
    ensures { IfOk result (λ next. next ≡ responding response context fetch) }
{
    let Received {
        head,
        body,
        was_304,
    } = response;
    let timing = timed(
        purpose_of(&fetch.order.looked),
        head.status,
        &head.fields,
        fetch.moment,
    );
    let uncacheable = context.fetch_request.uncacheable;
    let Ok(response) = response_at(
        head,
        timing,
        fetch.moment,
        uncacheable,
        was_304,
        &fetch.picked,
    ) else {
        return Err(out_of_memory((body, context, fetch)));
    };
    set_response(response, &mut context);
    let state = State::Response(Arrived {
        body,
        origin: timing.origin,
    });
    Ok(enter(state, context, fetch))
}

fn arrived(
    alloc: Global,
    received: Option<Received>,
    context: Context,
    fetch: Fetch,
) -> Result<Next, AllocError>
    ensures { IfOk result (λ next. next ≡ arrived_next received context fetch) }
{
    match received {
        None => fail(alloc, context, fetch),
        Some(response) => respond(response, context, fetch),
    }
}

fn replied(
    alloc: Global,
    context: Context,
    head: ResponseHead,
    body: Text,
    fetch: Fetch,
) -> Result<Next, AllocError>
    ensures { IfOk result (λ next. next ≡ after_exchange context (Exchange.Reply head body) fetch) }
{
    let Ok(received) = receive(
        alloc,
        &context.fetch_request.head,
        purpose_of(&fetch.order.looked),
        content_of(&fetch.order.stale),
        head,
        body,
    ) else {
        return Err(out_of_memory((context, fetch)));
    };
    arrived(alloc, received, context, fetch)
}

// The exchange is over.
fn exchange_over(
    alloc: Global,
    context: Context,
    exchange: Exchange,
    fetch: Fetch,
) -> Result<Next, AllocError>
    ensures { IfOk result (λ next. next ≡ after_exchange context exchange fetch) }
{
    match exchange {
        Exchange::Reply(head, body) => replied(alloc, context, head, body, fetch),
        Exchange::Fault(_) => fail(alloc, context, fetch),
        Exchange::NoMemory => Ok(over(context, fetch)),
    }
}

// The backend is asked once more, without a condition.
fn ask_again(alloc: Global, mut context: Context, fetch: Fetch) -> Result<Next, AllocError>
    ensures { IfOk result (λ next. next ≡ Next.Rest (WaitPoint.Ask (other_head (without_conditions context.fetch_request.head) context)) fetch) }
{
    let Ok(head) = context.fetch_request.head.copied(alloc) else {
        return Err(out_of_memory((context, fetch)));
    };
    set_head(unconditional(head), &mut context);
    Ok(Next::Rest {
        point: WaitPoint::Ask { context },
        fetch,
    })
}

// The response is delivered, whether the cache keeps it or not.
fn delivered<V: Drop>(_held: V, insertion: Insertion, moment: u64, fetch: Fetch) -> Next
    ensures { result ≡ Next.Rest (WaitPoint.Over (outcome_due fetch insertion.delivered moment insertion.is_marker)) fetch }
{
    let Insertion {
        object,
        delivered,
        is_marker,
        stale: _,
    } = insertion;
    drop(object);
    let outcome = outcome_of(&fetch, delivered, moment, is_marker);
    Next::Rest {
        point: WaitPoint::Over(outcome),
        fetch,
    }
}

// The insertion was answered.
fn insertion_over(
    alloc: Global,
    insertion: Insertion,
    context: Context,
    moment: u64,
    reply: Reply,
    fetch: Fetch,
) -> Result<Next, AllocError>
    ensures { IfOk result (λ next. next ≡ after_insertion insertion context moment reply fetch) }
{
    match reply {
        Reply::Stored(_) | Reply::NotInTime | Reply::NoRoom | Reply::Refused => {
            Ok(delivered(context, insertion, moment, fetch))
        }
        Reply::StaleGone => {
            drop(insertion);
            ask_again(alloc, context, fetch)
        }
        other => Ok(over((other, insertion, context), fetch)),
    }
}

// Where an answer leads while a backend is chosen.
fn take_pick(
    alloc: Global,
    context: Context,
    given: Given,
    fetch: Fetch,
) -> Result<Next, AllocError>
    ensures { IfOk result (λ next. next ≡ takes (WaitPoint.Pick context) given fetch) }
{
    match given {
        Given::Reply(told) => picked(alloc, context, told.moment, told.reply, fetch),
        other => Ok(over((other, context), fetch)),
    }
}

// Where an answer leads while a backend is asked.
fn take_exchange(
    alloc: Global,
    context: Context,
    given: Given,
    mut fetch: Fetch,
) -> Result<Next, AllocError>
    ensures { IfOk result (λ next. next ≡ takes (WaitPoint.Ask context) given fetch) }
{
    match given {
        Given::Exchange(got) => {
            fetch.moment = got.moment;
            exchange_over(alloc, context, got.exchange, fetch)
        }
        other => Ok(over((other, context), fetch)),
    }
}

// Where an answer leads while the response is inserted.
fn take_insertion(
    alloc: Global,
    insertion: Insertion,
    context: Context,
    given: Given,
    fetch: Fetch,
) -> Result<Next, AllocError>
    ensures { IfOk result (λ next. next ≡ takes (WaitPoint.Insert insertion context) given fetch) }
{
    match given {
        Given::Reply(told) => {
            insertion_over(alloc, insertion, context, told.moment, told.reply, fetch)
        }
        other => Ok(over((other, insertion, context), fetch)),
    }
}

/// Where an answer leads from a place, by `takes` of `specs/Answers.antt`.
pub fn take(alloc: Global, point: WaitPoint, given: Given, fetch: Fetch) -> Result<Next, AllocError>
    ensures { IfOk result (λ next. next ≡ takes point given fetch) }
{
    match point {
        WaitPoint::Pick { context } => take_pick(alloc, context, given, fetch),
        WaitPoint::Ask { context } => take_exchange(alloc, context, given, fetch),
        WaitPoint::Insert { insertion, context } => {
            take_insertion(alloc, insertion, context, given, fetch)
        }
        WaitPoint::Drop => Ok(over(given, fetch)),
        WaitPoint::Over(outcome) => Ok(over((outcome, given), fetch)),
    }
}
