// Where a fetch begins.
ghost use Rattle.std.specs.Prelude.{◌≡◌, not, IfOk};
ghost use Rattle.std.specs.Option.{option_copied};
ghost use Rattle.backend_request.specs.Passed.{is_store};
ghost use Rattle.backend_request.specs.Asked.{opened_request};
ghost use Rattle.fetch_graph.specs.Opening.{purpose_of as purpose_in, content_of as content_for, stale_fields, opening};

use crate::contexts::{first_context, hinted};
use crate::{Fetch, Next, State};
use backend_request::{Purpose, open_request};
use cache_law::rounds::Order;
use cache_law::{Content, Object, ObjectView, Query};
use http_heads::RequestHead;
use std::alloc::{AllocError, Global};
use units::{Shared, out_of_memory};
use vcl_context::FetchRequest;

/// Whether the response may be stored.
pub(crate) fn purpose_of(looked: &Option<Shared<Query>>) -> Purpose
    ensures { result ≡ purpose_in looked.now }
{
    match looked {
        None => Purpose::Pass,
        Some(_) => Purpose::Store,
    }
}

/// What a stale object holds.
pub(crate) fn content_of(stale: &Option<ObjectView>) -> Option<&Content>
    ensures { option_copied result ≡ content_for stale.now }
{
    let view = stale.as_ref()?;
    match &*view.object {
        Object::Ordinary(response) => Some(&*response.content),
        Object::HitForMiss(_) | Object::HitForPass(_) => None,
    }
}

fn open_head(alloc: Global, order: &Order) -> Result<RequestHead, AllocError>
    ensures { IfOk result (λ head. head ≡ opened_request (purpose_in order.now.looked) order.now.number (stale_fields (content_for order.now.stale)) order.now.request.head) }
{
    let purpose = purpose_of(&order.looked);
    match content_of(&order.stale) {
        Some(content) => open_request(
            alloc,
            &order.request.head,
            purpose,
            order.number,
            Some(&content.fields),
        ),
        None => open_request(alloc, &order.request.head, purpose, order.number, None),
    }
}

fn is_pass(purpose: Purpose) -> bool
    ensures { result ≡ not (is_store purpose) }
{
    match purpose {
        Purpose::Store => false,
        Purpose::Pass => true,
    }
}

/// The first step of the fetch of an order: vcl_backend_fetch.
pub fn open(alloc: Global, order: Order) -> Result<Next, AllocError>
    ensures { IfOk result (λ next. next ≡ opening order) }
{
    let Ok(head) = open_head(alloc, &order) else {
        return Err(out_of_memory(order));
    };
    let Ok(backend) = hinted(&order.hint_text, &order.hint) else {
        return Err(out_of_memory((head, order)));
    };
    let request = FetchRequest {
        head,
        backend,
        retries: 0,
        uncacheable: is_pass(purpose_of(&order.looked)),
        is_bgfetch: order.background,
    };
    let Ok(context) = first_context(alloc, order.peer, request) else {
        return Err(out_of_memory(order));
    };
    let moment = order.moment;
    Ok(Next::Enter {
        state: State::Request,
        context,
        fetch: Fetch {
            order,
            moment,
            retries: 0,
            picked: None,
        },
    })
}
