// Where an answer leads.
ghost use Rattle.std.specs.Prelude.{◌≡◌, ℕ, true, false, IfOk, option_map};
ghost use Rattle.vcl_context.specs.declared.context.Context.{Context as Worked};
ghost use Rattle.client_graph.specs.declared.round.HeldFetch.{HeldFetch as Open};
ghost use Rattle.client_graph.specs.Graph.{enter as entered};
ghost use Rattle.client_graph.specs.Contexts.{with_markers};
ghost use Rattle.client_graph.specs.Answers.{held_fetch, hit as hit_next, after_lookup, after_purge, after_drop, after_draw, fetched_object as object_fetched, fetched_body as body_fetched, after_fetch, after_send, after_background as behind, takes};
ghost use Rattle.client_graph.specs.FoundObject.{confirmable as confirms};

use crate::contexts::{mark, put_object, put_response};
use crate::dropping::over;
use crate::finding::{body_of, cached_at, confirmable, opened, passed_at};
use crate::leading::{enter, fail};
use crate::{FetchKind, FoundObject, HeldFetch, Next, Round, State, WaitPoint};
use cache_law::rounds::{FetchOutcome, Given};
use cache_law::{ObjectView, Query, Reply};
use delivery::{Failure, Numbers, ResponseBody};
use std::alloc::{AllocError, Global};
use units::{Shared, Text, out_of_memory};
use vcl_context::{CachedObject, Context};

// The fetch of a newer object, where the lookup gave its token.
fn held_for(
    token: Option<u64>,
    view: &ObjectView,
    query: Shared<Query>,
    moment: u64,
) -> Result<Option<HeldFetch>, AllocError>
    ensures { IfOk result (λ held. held ≡ option_map (λ number. held_fetch number query moment (confirms view.now)) token) }
{
    let Some(token) = token else {
        drop(query);
        return Ok(None);
    };
    let Ok(stale) = confirmable(view) else {
        return Err(out_of_memory(query));
    };
    Ok(Some(HeldFetch {
        token,
        query,
        moment,
        stale,
    }))
}

// An object was found.
fn hit(
    alloc: Global,
    view: ObjectView,
    token: Option<u64>,
    query: Shared<Query>,
    mut context: Context,
    moment: u64,
    round: Round,
) -> Result<Next, AllocError>
    ensures { IfOk result (λ next. next ≡ hit_next view token query context moment round) }
{
    let Ok(object) = cached_at(alloc, false, &view, moment) else {
        return Err(out_of_memory((view, query, context, round)));
    };
    put_object(object, &mut context);
    let Ok(held) = held_for(token, &view, query, moment) else {
        return Err(out_of_memory((view, context, round)));
    };
    mark(false, false, &mut context);
    Ok(enter(
        State::Hit(FoundObject { view, moment, held }),
        context,
        round,
    ))
}

// No object was found that is given.
fn missed(is_hitmiss: bool, held: HeldFetch, mut context: Context, round: Round) -> Next
    ensures { result ≡ entered (State.Miss held) (with_markers is_hitmiss false context) round }
{
    mark(is_hitmiss, false, &mut context);
    enter(State::Miss(held), context, round)
}

// A marker says that the request is passed.
fn hit_a_pass(mut context: Context, round: Round) -> Next
    ensures { result ≡ entered State.Pass (with_markers false true context) round }
{
    mark(false, true, &mut context);
    enter(State::Pass, context, round)
}

// The lookup was answered.
fn looked_up(
    alloc: Global,
    query: Shared<Query>,
    context: Context,
    moment: u64,
    reply: Reply,
    round: Round,
) -> Result<Next, AllocError>
    ensures { IfOk result (λ next. next ≡ after_lookup query context moment reply round) }
{
    match reply {
        Reply::Hit(view) => hit(alloc, view, None, query, context, moment, round),
        Reply::Grace { object, token } => hit(alloc, object, token, query, context, moment, round),
        Reply::Miss { token, stale } => {
            let held = HeldFetch {
                token,
                query,
                moment,
                stale,
            };
            Ok(missed(false, held, context, round))
        }
        Reply::HitMiss { token } => {
            let held = HeldFetch {
                token,
                query,
                moment,
                stale: None,
            };
            Ok(missed(true, held, context, round))
        }
        Reply::HitPass => {
            drop(query);
            Ok(hit_a_pass(context, round))
        }
        Reply::Wait(_) => Ok(Next::Rest {
            point: WaitPoint::Look { query, context },
            round,
        }),
        other => Ok(over((other, query, context), round)),
    }
}

// The key was looked up.
fn take_lookup(
    alloc: Global,
    query: Shared<Query>,
    context: Context,
    given: Given,
    round: Round,
) -> Result<Next, AllocError>
    ensures { IfOk result (λ next. next ≡ takes (WaitPoint.Look query context) given round) }
{
    match given {
        Given::Reply(told) => looked_up(alloc, query, context, told.moment, told.reply, round),
        other => Ok(over((other, query, context), round)),
    }
}

fn purged(context: Context, reply: Reply, round: Round) -> Next
    ensures { result ≡ after_purge context reply round }
{
    match reply {
        Reply::Purged(_) => enter(State::Purge, context, round),
        other => over((other, context), round),
    }
}

// The key was purged.
fn take_purge(context: Context, given: Given, round: Round) -> Next
    ensures { result ≡ takes (WaitPoint.Purge context) given round }
{
    match given {
        Given::Reply(told) => purged(context, told.reply, round),
        other => over((other, context), round),
    }
}

// The fetch is given up.
fn dropped(state: State, context: Context, reply: Reply, round: Round) -> Next
    ensures { result ≡ after_drop state context reply round }
{
    match reply {
        Reply::Dropped => Next::Enter {
            state,
            context,
            round,
        },
        other => over((other, state, context), round),
    }
}

fn take_drop(state: State, context: Context, given: Given, round: Round) -> Next
    ensures { (token : ℕ) → result ≡ takes (WaitPoint.Drop token state context) given round }
{
    match given {
        Given::Reply(told) => dropped(state, context, told.reply, round),
        other => over((other, state, context), round),
    }
}

fn drawn(context: Context, moment: u64, reply: Reply, round: Round) -> Next
    ensures { result ≡ after_draw context moment reply round }
{
    match reply {
        Reply::Drawn(number) => Next::Rest {
            point: WaitPoint::Fetch {
                kind: FetchKind::Pass { number, moment },
                context,
            },
            round,
        },
        other => over((other, context), round),
    }
}

// A number was drawn.
fn take_number(context: Context, given: Given, round: Round) -> Next
    ensures { result ≡ takes (WaitPoint.Draw context) given round }
{
    match given {
        Given::Reply(told) => drawn(context, told.moment, told.reply, round),
        other => over((other, context), round),
    }
}

// The object that vcl_deliver reads.
fn fetched_object(
    alloc: Global,
    kind: &FetchKind,
    uncacheable: bool,
    view: &ObjectView,
    moment: u64,
) -> Result<CachedObject, AllocError>
    ensures { IfOk result (λ object. object ≡ object_fetched kind.now uncacheable view.now moment) }
{
    match kind {
        FetchKind::Store(_) => cached_at(alloc, uncacheable, view, moment),
        FetchKind::Pass { .. } => passed_at(alloc, view, moment),
    }
}

// The body that is sent of its response.
fn fetched_body(
    alloc: Global,
    kind: &FetchKind,
    view: &ObjectView,
) -> Result<ResponseBody, AllocError>
    ensures { IfOk result (λ body. body ≡ body_fetched kind.now view.now) }
{
    match kind {
        FetchKind::Store(_) => body_of(alloc, &view.object, false),
        FetchKind::Pass { .. } => body_of(alloc, &view.object, true),
    }
}

// The response of a fetch is delivered.
fn deliver_fetched(
    alloc: Global,
    kind: &FetchKind,
    mut context: Context,
    view: &ObjectView,
    moment: u64,
    uncacheable: bool,
    round: Round,
) -> Result<Next, AllocError>
    ensures { IfOk result (λ next. next ≡ after_fetch kind.now context (FetchOutcome.Delivered view.now moment uncacheable) round) }
{
    let Ok(object) = fetched_object(alloc, kind, uncacheable, view, moment) else {
        return Err(out_of_memory((context, round)));
    };
    put_object(object, &mut context);
    let numbers = Numbers {
        round: round.number,
        object: None,
    };
    let Ok(response) = opened(alloc, numbers, view, moment) else {
        return Err(out_of_memory((context, round)));
    };
    put_response(response, &mut context);
    let Ok(body) = fetched_body(alloc, kind, view) else {
        return Err(out_of_memory((context, round)));
    };
    Ok(enter(State::Deliver(body), context, round))
}

// The fetch is over.
fn fetched(
    alloc: Global,
    kind: &FetchKind,
    context: Context,
    outcome: &FetchOutcome,
    round: Round,
) -> Result<Next, AllocError>
    ensures { IfOk result (λ next. next ≡ after_fetch kind.now context outcome.now round) }
{
    match outcome {
        FetchOutcome::Delivered {
            object,
            moment,
            uncacheable,
        } => deliver_fetched(alloc, kind, context, object, *moment, *uncacheable, round),
        FetchOutcome::Failed => fail(alloc, Failure::FetchFailed, context, round),
        FetchOutcome::Ended => Ok(over(context, round)),
    }
}

fn take_outcome(
    alloc: Global,
    kind: FetchKind,
    context: Context,
    given: Given,
    round: Round,
) -> Result<Next, AllocError>
    ensures { IfOk result (λ next. next ≡ takes (WaitPoint.Fetch kind context) given round) }
{
    match given {
        Given::Fetched(outcome) => {
            let next = fetched(alloc, &kind, context, &outcome, round);
            drop((kind, outcome));
            next
        }
        other => Ok(over((other, kind, context), round)),
    }
}

// The response was sent.
fn sent(context: Context, mut round: Round) -> Next
    ensures { result ≡ after_send context round.background round }
{
    let Some(held) = round.background.take() else {
        drop(context);
        return Next::Rest {
            point: WaitPoint::End,
            round,
        };
    };
    Next::Rest {
        point: WaitPoint::Background { held, context },
        round,
    }
}

// The response was sent, if that is what is given.
fn sent_if(given: Given, context: Context, round: Round) -> Next
    ensures { result ≡ takes (WaitPoint.Fail context) given round }
{
    match given {
        Given::Sent => sent(context, round),
        other => over((other, context), round),
    }
}

fn after_background(outcome: FetchOutcome, round: Round) -> Next
    ensures { result ≡ behind outcome round }
{
    match outcome {
        FetchOutcome::Ended => Next::Rest {
            point: WaitPoint::End,
            round,
        },
        other => over(other, round),
    }
}

fn take_background(given: Given, round: Round) -> Next
    ensures { (held : Open) (context : Worked) → result ≡ takes (WaitPoint.Background held context) given round }
{
    match given {
        Given::Fetched(outcome) => after_background(outcome, round),
        other => over(other, round),
    }
}

/// Where an answer leads from a place, by `takes` of `specs/Answers.antt`.
pub fn take(alloc: Global, point: WaitPoint, given: Given, round: Round) -> Result<Next, AllocError>
    ensures { IfOk result (λ next. next ≡ takes point given round) }
{
    match point {
        WaitPoint::Look { query, context } => take_lookup(alloc, query, context, given, round),
        WaitPoint::Purge { context } => Ok(take_purge(context, given, round)),
        WaitPoint::Drop {
            token: _,
            state,
            context,
        } => Ok(take_drop(state, context, given, round)),
        WaitPoint::Draw { context } => Ok(take_number(context, given, round)),
        WaitPoint::Fetch { kind, context } => take_outcome(alloc, kind, context, given, round),
        WaitPoint::Send { context, body } => {
            drop(body);
            Ok(sent_if(given, context, round))
        }
        WaitPoint::Fail { context } => Ok(sent_if(given, context, round)),
        WaitPoint::Background { held, context } => {
            drop((held, context));
            Ok(take_background(given, round))
        }
        WaitPoint::End | WaitPoint::Over => Ok(over(given, round)),
    }
}
