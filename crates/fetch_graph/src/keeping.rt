// A response that is delivered, and what the cache gets of it.
ghost use Rattle.std.specs.Prelude.{◌≡◌, Option, true, Some, IfOk};
ghost use Rattle.backend_request.specs.Stored.{response_of};
ghost use Rattle.cache_law.specs.declared.call.Query.{Query as Looked};
ghost use Rattle.fetch_graph.specs.Graph.{timing_left as times_left, marked_response as marked, object_for as object_to_keep, shown_for as shown_with, is_marked as marks, confirmed_number as confirmed, outcome_of as outcome_with, insertion_first, deliver_as, kept_by as kept_of, nothing as none_came};

use crate::{Arrived, Fetch, Insertion, Next, StoreAs, WaitPoint};
use backend_request::{make_marker, make_response};
use cache_law::rounds::FetchOutcome;
use cache_law::{Object, ObjectView, Query, Response};
use freshness::Timing;
use std::alloc::{AllocError, Global};
use units::{Copied, Shared, out_of_memory};
use vcl_context::{Context, FetchResponse};

// The times that VCL left.
fn timing_left(origin: i64, response: &FetchResponse) -> Timing
    ensures { result ≡ times_left origin response.now }
{
    Timing {
        origin,
        ttl: response.ttl,
        grace: response.grace,
        keep: response.keep,
    }
}

fn object_for(alloc: Global, store_as: StoreAs, response: &Response) -> Result<Object, AllocError>
    ensures { IfOk result (λ object. object ≡ object_to_keep store_as response.now) }
{
    match store_as {
        StoreAs::Whole => Ok(Object::Ordinary(Response {
            timing: response.timing,
            content: response.content.copy()?,
        })),
        StoreAs::HitForMiss => Ok(Object::HitForMiss(make_marker(
            alloc,
            response,
            response.timing.ttl,
        )?)),
        StoreAs::HitForPass(ttl) => Ok(Object::HitForPass(make_marker(alloc, response, ttl)?)),
    }
}

// The response with the times of a marker.
fn marked_response(ttl: i64, response: Response) -> Response
    ensures { result ≡ marked ttl response }
{
    let timing = Timing {
        origin: response.timing.origin,
        ttl,
        grace: 0,
        keep: 0,
    };
    Response {
        timing,
        content: response.content,
    }
}

fn shown_for(store_as: StoreAs, response: Response) -> Response
    ensures { result ≡ shown_with store_as response }
{
    match store_as {
        StoreAs::Whole => response,
        StoreAs::HitForMiss => marked_response(response.timing.ttl, response),
        StoreAs::HitForPass(ttl) => marked_response(ttl, response),
    }
}

fn is_marked(store_as: StoreAs) -> bool
    ensures { result ≡ marks store_as }
{
    match store_as {
        StoreAs::Whole => false,
        StoreAs::HitForMiss | StoreAs::HitForPass(_) => true,
    }
}

// The number of the object that was confirmed, if one was.
fn confirmed_number(was_304: bool, stale: &Option<ObjectView>) -> Option<u64>
    ensures { result ≡ confirmed was_304 stale.now }
{
    if !was_304 {
        return None;
    }
    match stale {
        Some(view) => Some(view.number),
        None => None,
    }
}

/// What came of a fetch that came to nothing.
pub(crate) fn nothing(fetch: &Fetch) -> FetchOutcome
    ensures { result ≡ none_came fetch.now }
{
    if fetch.order.background {
        FetchOutcome::Ended
    } else {
        FetchOutcome::Failed
    }
}

/// What came of a fetch with a response.
pub(crate) fn outcome_of(
    fetch: &Fetch,
    object: Shared<Object>,
    moment: u64,
    uncacheable: bool,
) -> FetchOutcome
    ensures { result ≡ outcome_with fetch.now object moment uncacheable }
{
    if fetch.order.background {
        return FetchOutcome::Ended;
    }
    FetchOutcome::Delivered {
        object: ObjectView {
            number: fetch.order.number,
            hits: 0,
            object,
        },
        moment,
        uncacheable,
    }
}

fn shared_for(
    alloc: Global,
    store_as: StoreAs,
    response: &Response,
) -> Result<Shared<Object>, AllocError>
    ensures { IfOk result (λ object. object ≡ object_to_keep store_as response.now) }
{
    Shared::new(alloc, object_for(alloc, store_as, response)?)
}

// What the cache gets, and what is delivered.
fn insertion_of(
    alloc: Global,
    store_as: StoreAs,
    response: Response,
    stale: Option<u64>,
) -> Result<Insertion, AllocError>
    ensures { IfOk result (λ insertion. insertion ≡ record { object = object_to_keep store_as response; delivered = Object.Ordinary (shown_with store_as response); is_marker = marks store_as; stale = stale }) }
{
    let Ok(object) = shared_for(alloc, store_as, &response) else {
        return Err(out_of_memory(response));
    };
    let Ok(delivered) = Shared::new(alloc, Object::Ordinary(shown_for(store_as, response))) else {
        return Err(out_of_memory(object));
    };
    Ok(Insertion {
        object,
        delivered,
        is_marker: is_marked(store_as),
        stale,
    })
}

// A response that isn't stored is delivered as it is.
fn deliver_passed(
    alloc: Global,
    response: Response,
    context: Context,
    fetch: Fetch,
) -> Result<Next, AllocError>
    ensures { IfOk result (λ next. next ≡ Next.Rest (WaitPoint.Over (outcome_with fetch (Object.Ordinary response) fetch.moment true)) fetch) }
{
    drop(context);
    let Ok(object) = Shared::new(alloc, Object::Ordinary(response)) else {
        return Err(out_of_memory(fetch));
    };
    let outcome = outcome_of(&fetch, object, fetch.moment, true);
    Ok(Next::Rest {
        point: WaitPoint::Over(outcome),
        fetch,
    })
}

// One that may be stored is handed to the cache first.
#[tactic(auto, unfolding(crate::specs::Graph::insertion_first))]
fn insert(
    alloc: Global,
    store_as: StoreAs,
    response: Response,
    context: Context,
    fetch: Fetch,
) -> Result<Next, AllocError>
    ensures { (query : Looked) → IfOk result (λ next. next ≡ insertion_first (Some query) store_as response context fetch) }
{
    let stale = confirmed_number(context.fetch_response.was_304, &fetch.order.stale);
    let Ok(insertion) = insertion_of(alloc, store_as, response, stale) else {
        return Err(out_of_memory((context, fetch)));
    };
    Ok(Next::Rest {
        point: WaitPoint::Insert { insertion, context },
        fetch,
    })
}

fn hand_over(
    alloc: Global,
    store_as: StoreAs,
    response: Response,
    context: Context,
    fetch: Fetch,
) -> Result<Next, AllocError>
    ensures { IfOk result (λ next. next ≡ insertion_first fetch.order.looked store_as response context fetch) }
{
    match &fetch.order.looked {
        None => deliver_passed(alloc, response, context, fetch),
        Some(_) => insert(alloc, store_as, response, context, fetch),
    }
}

fn response_left(
    alloc: Global,
    looked: &Option<Shared<Query>>,
    arrived: Arrived,
    response: &FetchResponse,
) -> Result<Response, AllocError>
    ensures { IfOk result (λ made. made ≡ response_of looked.now response.now.head arrived.body (times_left arrived.origin response.now)) }
{
    let Ok(head) = response.head.copied(alloc) else {
        return Err(out_of_memory(arrived));
    };
    let timing = timing_left(arrived.origin, response);
    match looked {
        Some(query) => make_response(alloc, Some(&**query), head, arrived.body, timing),
        None => make_response(alloc, None, head, arrived.body, timing),
    }
}

/// The response that VCL left is delivered, with the body and the origin of what arrived.
pub(crate) fn deliver(
    alloc: Global,
    store_as: StoreAs,
    arrived: Arrived,
    context: Context,
    fetch: Fetch,
) -> Result<Next, AllocError>
    ensures { IfOk result (λ next. next ≡ deliver_as store_as arrived context fetch) }
{
    let Ok(response) = response_left(alloc, &fetch.order.looked, arrived, &context.fetch_response)
    else {
        return Err(out_of_memory((context, fetch)));
    };
    hand_over(alloc, store_as, response, context, fetch)
}

/// What `deliver` keeps.
pub(crate) fn kept_by(response: &FetchResponse) -> StoreAs
    ensures { result ≡ kept_of response.now }
{
    if response.uncacheable {
        StoreAs::HitForMiss
    } else {
        StoreAs::Whole
    }
}
