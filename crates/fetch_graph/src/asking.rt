// What is wanted where a fetch rests.
ghost use Rattle.std.specs.Prelude.{◌≡◌, IfOk};
ghost use Rattle.backend_request.specs.Asked.{finished_request};
ghost use Rattle.vcl_context.specs.Initial.{body_or_empty as body_made};
ghost use Rattle.fetch_graph.specs.Opening.{purpose_of as purpose_in};
ghost use Rattle.fetch_graph.specs.Wants.{key_text as text_of_key, word_for as word_of, asks};

use crate::opening::purpose_of;
use crate::{Fetch, FetchWant, WaitPoint};
use backend_request::finish_request;
use cache_law::Call;
use cache_law::rounds::FetchOutcome;
use directors::{DirectorKind, Target, key_word};
use std::alloc::{AllocError, Global};
use units::{Copied, Shared, Text};
use vcl_context::{Context, body_or_empty};
use vcl_values::Backend;

fn key_text(alloc: Global, backend: &Option<Backend>) -> Result<Text, AllocError>
    ensures { IfOk result (λ text. text ≡ text_of_key backend.now) }
{
    match backend {
        Some(Backend { key: Some(key), .. }) => Ok(key.copy()?),
        _ => Text::of(alloc, b""),
    }
}

fn word_for(kind: DirectorKind, text: &Text, drawn: u64) -> u64
    ensures { result ≡ word_of kind text.now drawn }
{
    match kind {
        DirectorKind::Random => drawn,
        DirectorKind::Hash => key_word(text),
        _ => 0,
    }
}

fn pick(
    alloc: Global,
    target: Target,
    drawn: u64,
    fetch: &Fetch,
    context: &Context,
) -> Result<FetchWant, AllocError>
    ensures { IfOk result (λ want. want ≡ asks target drawn fetch.now (WaitPoint.Pick context.now)) }
{
    let text = key_text(alloc, &context.fetch_request.backend)?;
    let word = word_for(target.kind, &text, drawn);
    Ok(FetchWant::Cache(Call::Pick {
        vcl: fetch.order.vcl,
        target: Shared::new(alloc, target)?,
        word,
    }))
}

fn ask_backend(alloc: Global, fetch: &Fetch, context: &Context) -> Result<FetchWant, AllocError>
    ensures { IfOk result (λ want. want ≡ FetchWant.Ask (body_made fetch.now.picked) (finished_request (purpose_in fetch.now.order.looked) fetch.now.order.request.body context.now.fetch_request.head)) }
{
    let head = context.fetch_request.head.copied(alloc)?;
    Ok(FetchWant::Ask {
        backend: body_or_empty(alloc, &fetch.picked)?,
        request: finish_request(
            alloc,
            head,
            purpose_of(&fetch.order.looked),
            &fetch.order.request.body,
        )?,
    })
}

fn outcome_copy(outcome: &FetchOutcome) -> Result<FetchOutcome, AllocError>
    ensures { IfOk result (λ copy. copy ≡ outcome.now) }
{
    match outcome {
        FetchOutcome::Delivered {
            object,
            moment,
            uncacheable,
        } => Ok(FetchOutcome::Delivered {
            object: object.copy()?,
            moment: *moment,
            uncacheable: *uncacheable,
        }),
        FetchOutcome::Failed => Ok(FetchOutcome::Failed),
        FetchOutcome::Ended => Ok(FetchOutcome::Ended),
    }
}

/// What is wanted where the fetch rests, by `asks` of `specs/Wants.antt`. `target` is what its request is to be sent to, and
/// `drawn` the word by which a director of kind random chooses.
pub fn ask(
    alloc: Global,
    target: Target,
    drawn: u64,
    fetch: &Fetch,
    point: &WaitPoint,
) -> Result<FetchWant, AllocError>
    ensures { IfOk result (λ want. want ≡ asks target drawn fetch.now point.now) }
{
    match point {
        WaitPoint::Pick { context } => pick(alloc, target, drawn, fetch, context),
        WaitPoint::Ask { context } => ask_backend(alloc, fetch, context),
        WaitPoint::Insert { insertion, .. } => Ok(FetchWant::Cache(Call::Insert {
            token: fetch.order.number,
            object: insertion.object.copy()?,
            stale: insertion.stale,
        })),
        WaitPoint::Drop => Ok(FetchWant::Cache(Call::Drop {
            token: fetch.order.number,
        })),
        WaitPoint::Over(outcome) => Ok(FetchWant::Done(outcome_copy(outcome)?)),
    }
}
