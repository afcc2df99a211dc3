// Where a subroutine's word leads.
ghost use Rattle.std.specs.Prelude.{◌≡◌, ◌<◌, Option, IfOk, option_map};
ghost use Rattle.client_graph.specs.declared.round.HeldFetch.{HeldFetch as Open};
ghost use Rattle.client_graph.specs.Contexts.{without_key};
ghost use Rattle.client_graph.specs.Graph.{subroutine_of, enter as entered, enter_synth, failing, may_restart as may, round_again, round_again_if as restarts_if, common as common_next, giving_up, round_again_late as late, late_restart as late_next, last_restart as last_next, query_of as query_in, delivered_hit as hit_next, leads};

use crate::contexts::{context_again, forget_key, put_bare_response, put_response};
use crate::finding::{body_of, opened};
use crate::{FetchKind, FoundObject, HeldFetch, KeyUse, Next, Round, State, WaitPoint};
use cache_law::{Options, Query, RequestView};
use delivery::{Failure, Numbers, ResponseBody, open_synthetic};
use std::alloc::{AllocError, Global};
use std::mem;
use units::{Copied, Shared, Text, out_of_memory};
use vcl_context::{Context, Return, body_or_empty, status_or_503};
use vcl_language::Subroutine;

/// A round is restarted at most so often.
pub const MAX_RESTARTS: u32 = 4;

impl State {
    /// The subroutine that runs in it.
    pub fn subroutine(&self) -> Subroutine
        ensures { result ≡ subroutine_of self.now }
    {
        match self {
            State::Recv => Subroutine::Recv,
            State::Hash(_) => Subroutine::Hash,
            State::Purge => Subroutine::Purge,
            State::Hit(_) => Subroutine::Hit,
            State::Miss(_) => Subroutine::Miss,
            State::Pass => Subroutine::Pass,
            State::Deliver(_) => Subroutine::Deliver,
            State::Synth => Subroutine::Synth,
        }
    }
}

/// The subroutine of a state runs, with no statement counted.
pub fn enter(state: State, mut context: Context, round: Round) -> Next
    ensures { result ≡ entered state context round }
{
    context.statements = 0;
    Next::Enter {
        state,
        context,
        round,
    }
}

fn synthesize(
    alloc: Global,
    status: u16,
    reason: &Text,
    mut context: Context,
    round: Round,
) -> Result<Next, AllocError>
    ensures { IfOk result (λ next. next ≡ enter_synth status reason.now context round) }
{
    let Ok(response) = open_synthetic(alloc, status, reason, round.number) else {
        return Err(out_of_memory((context, round)));
    };
    put_bare_response(response, &mut context);
    Ok(enter(State::Synth, context, round))
}

/// vcl_synth tells the client of a failure.
pub fn fail(
    alloc: Global,
    failure: Failure,
    context: Context,
    round: Round,
) -> Result<Next, AllocError>
    ensures { IfOk result (λ next. next ≡ failing failure context round) }
{
    let Ok(reason) = Text::of(alloc, failure.reason()) else {
        return Err(out_of_memory((context, round)));
    };
    synthesize(alloc, 503, &reason, context, round)
}

fn may_restart(round: &Round) -> bool
    ensures { result ≡ may round.now }
{
    round.restarts < MAX_RESTARTS
}

fn restart(alloc: Global, mut context: Context, mut round: Round) -> Result<Next, AllocError>
    requires { round.restarts < 4 }
    ensures { IfOk result (λ next. next ≡ round_again context round) }
{
    round.restarts += 1;
    let Ok(()) = context_again(alloc, round.restarts, round.peer, &mut context) else {
        return Err(out_of_memory((context, round)));
    };
    Ok(enter(State::Recv, context, round))
}

fn restart_if_allowed(alloc: Global, context: Context, round: Round) -> Result<Next, AllocError>
    ensures { IfOk result (λ next. next ≡ restarts_if (may round) context round) }
{
    if may_restart(&round) {
        restart(alloc, context, round)
    } else {
        fail(alloc, Failure::TooManyRestarts, context, round)
    }
}

// The words that lead to the same from wherever they are given.
fn common(alloc: Global, word: &Return, context: Context, round: Round) -> Result<Next, AllocError>
    ensures { IfOk result (λ next. next ≡ common_next word.now context round) }
{
    match word {
        Return::Synth(status, reason) => {
            synthesize(alloc, status_or_503(*status), reason, context, round)
        }
        Return::Restart => restart_if_allowed(alloc, context, round),
        _ => fail(alloc, Failure::VclFailed, context, round),
    }
}

fn held_of(mut found: FoundObject) -> Option<HeldFetch>
    ensures { result ≡ found.held }
{
    found.held.take()
}

// The token of a fetch that isn't made.
fn token_of(held: Option<HeldFetch>) -> Option<u64>
    ensures { result ≡ option_map (λ (fetch : Open). fetch.token) held }
{
    match held {
        Some(held) => Some(held.token),
        None => None,
    }
}

fn give_up_first(token: u64, next: Next) -> Next
    ensures { (held : Open) → held.token ≡ token → result ≡ giving_up (Some held) next }
{
    match next {
        Next::Enter {
            state,
            context,
            round,
        } => Next::Rest {
            point: WaitPoint::Drop {
                token,
                state,
                context,
            },
            round,
        },
        next => next,
    }
}

// An open fetch that isn't made is given up first.
fn give_up(held: Option<HeldFetch>, next: Next) -> Next
    ensures { result ≡ giving_up held next }
{
    match token_of(held) {
        Some(token) => give_up_first(token, next),
        None => next,
    }
}

// A restart that happens gives up the fetch that was to be made behind the response.
fn restart_late(alloc: Global, context: Context, mut round: Round) -> Result<Next, AllocError>
    requires { round.restarts < 4 }
    ensures { IfOk result (λ next. next ≡ late context round) }
{
    let background = round.background.take();
    let Ok(next) = restart(alloc, context, round) else {
        return Err(out_of_memory(background));
    };
    Ok(give_up(background, next))
}

// `restart` in vcl_deliver.
fn late_restart(alloc: Global, context: Context, round: Round) -> Result<Next, AllocError>
    ensures { IfOk result (λ next. next ≡ late_next (may round) context round) }
{
    if may_restart(&round) {
        restart_late(alloc, context, round)
    } else {
        fail(alloc, Failure::TooManyRestarts, context, round)
    }
}

// `restart` in vcl_synth.
fn last_restart(alloc: Global, context: Context, round: Round) -> Result<Next, AllocError>
    ensures { IfOk result (λ next. next ≡ last_next (may round) context round) }
{
    if may_restart(&round) {
        restart_late(alloc, context, round)
    } else {
        Ok(Next::Rest {
            point: WaitPoint::Fail { context },
            round,
        })
    }
}

// What a lookup asks for.
fn query_of(alloc: Global, context: &Context) -> Result<Query, AllocError>
    ensures { IfOk result (λ query. query ≡ query_in context.now) }
{
    let request = &context.request;
    Ok(Query {
        key: context.key.copied(alloc)?,
        request: RequestView {
            url: request.head.url.copy()?,
            fields: request.head.fields.copied(alloc)?,
        },
        options: Options {
            always_miss: request.hash_always_miss,
            ignore_busy: request.hash_ignore_busy,
            ignore_vary: request.hash_ignore_vary,
            ttl: request.ttl,
            grace: request.grace,
        },
    })
}

fn shared_query(alloc: Global, context: &Context) -> Result<Shared<Query>, AllocError>
    ensures { IfOk result (λ query. query ≡ query_in context.now) }
{
    Shared::new(alloc, query_of(alloc, context)?)
}

// The key is made for a lookup.
fn look_up(alloc: Global, context: Context, round: Round) -> Result<Next, AllocError>
    ensures { IfOk result (λ next. next ≡ leads (State.Hash KeyUse.Lookup) Return.Lookup context round) }
{
    let Ok(query) = shared_query(alloc, &context) else {
        return Err(out_of_memory((context, round)));
    };
    Ok(Next::Rest {
        point: WaitPoint::Look { query, context },
        round,
    })
}

// The key is made, for a lookup or for a purge.
fn use_key(
    alloc: Global,
    key_use: KeyUse,
    context: Context,
    round: Round,
) -> Result<Next, AllocError>
    ensures { IfOk result (λ next. next ≡ leads (State.Hash key_use) Return.Lookup context round) }
{
    match key_use {
        KeyUse::Lookup => look_up(alloc, context, round),
        KeyUse::Purge => Ok(Next::Rest {
            point: WaitPoint::Purge { context },
            round,
        }),
    }
}

// The fetch is made behind the response.
fn fetch_in_background(held: Option<HeldFetch>, round: &mut Round)
    ensures { round.new ≡ record round.old { background = held } }
{
    drop(mem::replace(&mut round.background, held));
}

// An object that was found is delivered.
fn deliver_hit(
    alloc: Global,
    found: FoundObject,
    mut context: Context,
    mut round: Round,
) -> Result<Next, AllocError>
    ensures { IfOk result (λ next. next ≡ hit_next found context round) }
{
    let numbers = Numbers {
        round: round.number,
        object: Some(found.view.number),
    };
    let Ok(response) = opened(alloc, numbers, &found.view, found.moment) else {
        return Err(out_of_memory((found, context, round)));
    };
    let Ok(body) = body_of(alloc, &found.view.object, false) else {
        return Err(out_of_memory((response, found, context, round)));
    };
    put_response(response, &mut context);
    fetch_in_background(held_of(found), &mut round);
    Ok(enter(State::Deliver(body), context, round))
}

// The response that VCL made is sent.
fn send_made(alloc: Global, context: Context, round: Round) -> Result<Next, AllocError>
    ensures { IfOk result (λ next. next ≡ leads State.Synth Return.Deliver context round) }
{
    let Ok(text) = body_or_empty(alloc, &context.body) else {
        return Err(out_of_memory((context, round)));
    };
    let body = ResponseBody {
        text,
        passed: false,
    };
    Ok(Next::Rest {
        point: WaitPoint::Send { context, body },
        round,
    })
}

// A key is to be made.
fn make_key(alloc: Global, key_use: KeyUse, mut context: Context, round: Round) -> Next
    ensures { result ≡ entered (State.Hash key_use) (without_key context) round }
{
    forget_key(alloc, &mut context);
    enter(State::Hash(key_use), context, round)
}

fn lead_recv(
    alloc: Global,
    word: &Return,
    context: Context,
    round: Round,
) -> Result<Next, AllocError>
    ensures { IfOk result (λ next. next ≡ leads State.Recv word.now context round) }
{
    match word {
        Return::Hash => Ok(make_key(alloc, KeyUse::Lookup, context, round)),
        Return::Purge => Ok(make_key(alloc, KeyUse::Purge, context, round)),
        Return::Pass => Ok(enter(State::Pass, context, round)),
        word => common(alloc, word, context, round),
    }
}

fn lead_hash(
    alloc: Global,
    key_use: KeyUse,
    word: &Return,
    context: Context,
    round: Round,
) -> Result<Next, AllocError>
    ensures { IfOk result (λ next. next ≡ leads (State.Hash key_use) word.now context round) }
{
    match word {
        Return::Lookup => use_key(alloc, key_use, context, round),
        word => common(alloc, word, context, round),
    }
}

fn lead_hit(
    alloc: Global,
    found: FoundObject,
    word: &Return,
    context: Context,
    round: Round,
) -> Result<Next, AllocError>
    ensures { IfOk result (λ next. next ≡ leads (State.Hit found) word.now context round) }
{
    match word {
        Return::Deliver => deliver_hit(alloc, found, context, round),
        Return::Pass => Ok(give_up(held_of(found), enter(State::Pass, context, round))),
        word => {
            let Ok(next) = common(alloc, word, context, round) else {
                return Err(out_of_memory(found));
            };
            Ok(give_up(held_of(found), next))
        }
    }
}

fn lead_miss(
    alloc: Global,
    held: HeldFetch,
    word: &Return,
    context: Context,
    round: Round,
) -> Result<Next, AllocError>
    ensures { IfOk result (λ next. next ≡ leads (State.Miss held) word.now context round) }
{
    match word {
        Return::Fetch => Ok(Next::Rest {
            point: WaitPoint::Fetch {
                kind: FetchKind::Store(held),
                context,
            },
            round,
        }),
        Return::Pass => Ok(give_up(Some(held), enter(State::Pass, context, round))),
        word => {
            let Ok(next) = common(alloc, word, context, round) else {
                return Err(out_of_memory(held));
            };
            Ok(give_up(Some(held), next))
        }
    }
}

fn lead_pass(
    alloc: Global,
    word: &Return,
    context: Context,
    round: Round,
) -> Result<Next, AllocError>
    ensures { IfOk result (λ next. next ≡ leads State.Pass word.now context round) }
{
    match word {
        Return::Fetch => Ok(Next::Rest {
            point: WaitPoint::Draw { context },
            round,
        }),
        word => common(alloc, word, context, round),
    }
}

fn lead_deliver(
    alloc: Global,
    body: ResponseBody,
    word: &Return,
    context: Context,
    round: Round,
) -> Result<Next, AllocError>
    ensures { IfOk result (λ next. next ≡ leads (State.Deliver body) word.now context round) }
{
    match word {
        Return::Deliver => Ok(Next::Rest {
            point: WaitPoint::Send { context, body },
            round,
        }),
        Return::Restart => {
            drop(body);
            late_restart(alloc, context, round)
        }
        word => {
            drop(body);
            common(alloc, word, context, round)
        }
    }
}

fn lead_synth(
    alloc: Global,
    word: &Return,
    context: Context,
    round: Round,
) -> Result<Next, AllocError>
    ensures { IfOk result (λ next. next ≡ leads State.Synth word.now context round) }
{
    match word {
        Return::Deliver => send_made(alloc, context, round),
        Return::Restart => last_restart(alloc, context, round),
        _ => Ok(Next::Rest {
            point: WaitPoint::Fail { context },
            round,
        }),
    }
}

fn lead_by(
    alloc: Global,
    state: State,
    word: &Return,
    context: Context,
    round: Round,
) -> Result<Next, AllocError>
    ensures { IfOk result (λ next. next ≡ leads state word.now context round) }
{
    match state {
        State::Recv => lead_recv(alloc, word, context, round),
        State::Hash(key_use) => lead_hash(alloc, key_use, word, context, round),
        State::Purge => common(alloc, word, context, round),
        State::Hit(found) => lead_hit(alloc, found, word, context, round),
        State::Miss(held) => lead_miss(alloc, held, word, context, round),
        State::Pass => lead_pass(alloc, word, context, round),
        State::Deliver(body) => lead_deliver(alloc, body, word, context, round),
        State::Synth => lead_synth(alloc, word, context, round),
    }
}

/// Where the word leads with which the subroutine of a state ended, by `leads` of `specs/Graph.antt`. `context` is what it
/// left.
pub fn lead(
    alloc: Global,
    state: State,
    word: Return,
    context: Context,
    round: Round,
) -> Result<Next, AllocError>
    ensures { IfOk result (λ next. next ≡ leads state word context round) }
{
    lead_by(alloc, state, &word, context, round)
}
