// What is wanted where a round rests.
ghost use Rattle.std.specs.Prelude.{◌≡◌, Option, None, Some, IfOk};
ghost use Rattle.std.specs.Option.{option_copied};
ghost use Rattle.delivery.specs.Finished.{finished};
ghost use Rattle.client_graph.specs.Wants.{hint_at as hint_in, hint_text as text_of_hint, store_order as store_ordered, pass_order as pass_ordered, order_of as ordered, asks_with};

use crate::{ClientWant, FetchKind, HeldFetch, Round, WaitPoint};
use cache_law::rounds::{Order, Request};
use cache_law::{Call, ObjectView};
use delivery::{ResponseBody, failure_page, finish};
use directors::Target;
use http_heads::RequestHead;
use std::alloc::{AllocError, Global};
use units::{Copied, Text, out_of_memory};
use vcl_context::Context;
use vcl_values::Backend;

impl WaitPoint {
    /// The backend or director that VCL chose, where a fetch is asked for here.
    pub fn hint(&self) -> Option<&Backend>
        ensures { option_copied result ≡ hint_in self.now }
    {
        match self {
            WaitPoint::Fetch { context, .. } | WaitPoint::Background { context, .. } => {
                context.request.backend_hint.as_ref()
            }
            _ => None,
        }
    }
}

fn hint_text(alloc: Global, hint: &Option<Backend>) -> Result<Text, AllocError>
    ensures { IfOk result (λ text. text ≡ text_of_hint hint.now) }
{
    match hint {
        Some(Backend { key: Some(key), .. }) => Ok(key.copy()?),
        _ => Text::of(alloc, b""),
    }
}

fn stale_copy(stale: &Option<ObjectView>) -> Result<Option<ObjectView>, AllocError>
    ensures { IfOk result (λ copy. copy ≡ stale.now) }
{
    match stale {
        Some(view) => Ok(Some(view.copy()?)),
        None => Ok(None),
    }
}

// The request of a fetch.
fn request_of(alloc: Global, context: &Context, body: Text) -> Result<Request, AllocError>
    ensures { IfOk result (λ request. request ≡ record { head = context.now.request.head; body = body }) }
{
    let Ok(head) = context.request.head.copied(alloc) else {
        return Err(out_of_memory(body));
    };
    Ok(Request { head, body })
}

// A fetch of what may be stored.
fn store_order(
    alloc: Global,
    hint: Option<Target>,
    background: bool,
    round: &Round,
    held: &HeldFetch,
    context: &Context,
) -> Result<Order, AllocError>
    ensures { IfOk result (λ order. order ≡ store_ordered hint background round.now held.now context.now) }
{
    let Ok(body) = Text::of(alloc, b"") else {
        return Err(out_of_memory(hint));
    };
    let Ok(request) = request_of(alloc, context, body) else {
        return Err(out_of_memory(hint));
    };
    let Ok(hint_text) = hint_text(alloc, &context.request.backend_hint) else {
        return Err(out_of_memory((hint, request)));
    };
    let Ok(looked) = held.query.copy() else {
        return Err(out_of_memory((hint, request, hint_text)));
    };
    let Ok(stale) = stale_copy(&held.stale) else {
        return Err(out_of_memory((hint, request, hint_text, looked)));
    };
    Ok(Order {
        number: held.token,
        vcl: round.vcl,
        peer: round.peer,
        request,
        hint,
        hint_text,
        looked: Some(looked),
        stale,
        background,
        moment: held.moment,
    })
}

// A fetch of the response to a request that is passed.
fn pass_order(
    alloc: Global,
    hint: Option<Target>,
    round: &Round,
    number: u64,
    moment: u64,
    context: &Context,
) -> Result<Order, AllocError>
    ensures { IfOk result (λ order. order ≡ pass_ordered hint round.now number moment context.now) }
{
    let Ok(body) = round.asked.body.copy() else {
        return Err(out_of_memory(hint));
    };
    let Ok(request) = request_of(alloc, context, body) else {
        return Err(out_of_memory(hint));
    };
    let Ok(hint_text) = hint_text(alloc, &context.request.backend_hint) else {
        return Err(out_of_memory((hint, request)));
    };
    Ok(Order {
        number,
        vcl: round.vcl,
        peer: round.peer,
        request,
        hint,
        hint_text,
        looked: None,
        stale: None,
        background: false,
        moment,
    })
}

fn order_of(
    alloc: Global,
    hint: Option<Target>,
    round: &Round,
    kind: &FetchKind,
    context: &Context,
) -> Result<Order, AllocError>
    ensures { IfOk result (λ order. order ≡ ordered hint round.now kind.now context.now) }
{
    match kind {
        FetchKind::Store(held) => store_order(alloc, hint, false, round, held, context),
        FetchKind::Pass { number, moment } => {
            pass_order(alloc, hint, round, *number, *moment, context)
        }
    }
}

// The response that is sent of what VCL left.
fn send(
    alloc: Global,
    asked: &RequestHead,
    context: &Context,
    body: &ResponseBody,
) -> Result<ClientWant, AllocError>
    ensures { IfOk result (λ want. want ≡ ClientWant.Send (finished asked.now context.now.request.head.fields context.now.response body.now)) }
{
    let body = ResponseBody {
        text: body.text.copy()?,
        passed: body.passed,
    };
    let Ok(head) = context.response.copied(alloc) else {
        return Err(out_of_memory(body));
    };
    let fields = &context.request.head.fields;
    Ok(ClientWant::Send(finish(alloc, asked, fields, head, body)?))
}

/// What is wanted where the round rests, by `asks_with` of `specs/Wants.antt`. `hint` is the target that `WaitPoint::hint`
/// names, where it names one.
pub fn ask(
    alloc: Global,
    hint: Option<Target>,
    round: &Round,
    point: &WaitPoint,
) -> Result<ClientWant, AllocError>
    ensures { IfOk result (λ want. want ≡ asks_with hint round.now point.now) }
{
    match point {
        WaitPoint::Look { query, .. } => Ok(ClientWant::Cache(Call::Lookup(query.copy()?))),
        WaitPoint::Purge { context } => Ok(ClientWant::Cache(Call::Purge {
            key: context.key.copied(alloc)?,
        })),
        WaitPoint::Drop { token, .. } => Ok(ClientWant::Cache(Call::Drop { token: *token })),
        WaitPoint::Draw { .. } => Ok(ClientWant::Cache(Call::Draw)),
        WaitPoint::Fetch { kind, context } => {
            Ok(ClientWant::Fetch(order_of(alloc, hint, round, kind, context)?))
        }
        WaitPoint::Send { context, body } => send(alloc, &round.asked.head, context, body),
        WaitPoint::Fail { .. } => Ok(ClientWant::Send(failure_page(alloc)?)),
        WaitPoint::Background { held, context } => Ok(ClientWant::Background(store_order(
            alloc, hint, true, round, held, context,
        )?)),
        WaitPoint::End => Ok(ClientWant::Cache(Call::End)),
        WaitPoint::Over => Ok(ClientWant::Done),
    }
}
