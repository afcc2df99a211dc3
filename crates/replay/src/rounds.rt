// One round in turn, over one cache and one sink.
ghost use Rattle.std.specs.Prelude.{◌≡◌, ◌⊎◌, None, Some, ◌++◌, ◌∷◌, ◌+◌, ◌≤◌, [], ℕ, List, IfOk, OnOk, OnErr, IfErr, IsErrOf, MatchResult, false, true};
ghost use Rattle.backend_link.specs.Exchanges.{asks_head, sent_text};
ghost use Rattle.cache_law.specs.Beginning.{Beginning};
ghost use Rattle.cache_law.specs.declared.call.Entry.{Entry as HistoryEntry};
ghost use Rattle.cache_law.specs.History.{HasWaited, reached};
ghost use Rattle.replay.specs.Plan.{plan_of};
ghost use Rattle.replay.specs.Policy.{ends_wait, is_response, rests};
ghost use Rattle.replay.specs.declared.policy.Want.TheVariants as wants;
ghost use Rattle.replay.specs.Scene.{Scene, fetch_line};
ghost use Rattle.replay.specs.Pieces.{Pieces, Tells, UsesSink, pieces};
ghost use Rattle.replay.specs.Waits.{IsSettled, KeepsOthers, RunsAlone, wait_of};
ghost use Rattle.replay.specs.Went.{CanLead, ComesTo, HasTurn, IsAt, IsInStep, IsSet, IsStage, Keeps, KeepsCore, Meets, NobodyRuns, Went, change_of, spare, stage_of};

use crate::lines::{write_fetch_line, write_response_line};
use crate::pieces::take_line;
use crate::{Given, Policy, Want};
use cache_law::{CacheCore, Call, StepError};
use http_heads::BackendRequest;
use std::alloc::Global;
use units::Text;
use wire::Sink;

/// A round that waits for the reply to the fetch of this number.
#[derive(Drop)]
pub(crate) struct Pending<P> {
    pub(crate) number: u64,
    pub(crate) client: u32,
    /// Whether the request to the backend was HEAD.
    pub(crate) to_head: bool,
    pub(crate) policy: P,
}

/// A round that waits until the fetch of this number is closed.
#[derive(Drop)]
pub(crate) struct Kept<P> {
    pub(crate) token: u64,
    pub(crate) client: u32,
    pub(crate) policy: P,
}

/// What breaks a session off.
#[derive(Clone, Copy, Debug)]
pub(crate) enum Break {
    WriteFault,
    HistoryFull,
    NoMemory,
}

/// A session under way: its cache, its moment, the rounds that wait for a reply and for a token, and what of the
/// transcript isn't written yet.
#[derive(Drop)]
pub(crate) struct Play<C, P> {
    pub(crate) core: C,
    pub(crate) moment: u64,
    pub(crate) waiting: Vec<Pending<P>>,
    pub(crate) parked: Vec<Kept<P>>,
    pub(crate) unwritten: Vec<u8>,
}

/// Makes the call that the client's round wants, and tells the round.
pub(crate) fn ask<C: CacheCore, P: Policy>(
    alloc: Global,
    core: &mut C,
    moment: u64,
    client: u32,
    policy: &mut P,
    context: &mut P::Context,
    call: Call,
) -> Result<Want, Break>
    requires in_step { IsInStep (C.beginning core.old) (C.history core.old) moment }
    requires can { CanLead P.wants P.stands policy.old client (wants.Ask call) }
    requires waited { HasWaited (reached (C.beginning core.old) (C.history core.old)) client call }
    ensures asked { (kept : Pieces) (scene : Scene) → IsAt (C.beginning core.old) (C.history core.old) moment scene → HasTurn P.wants P.stands policy.old client (wants.Ask call) scene →
        Went (plan_of P.wants (C.beginning core.old)) scene [] (C.history core.old) (C.history core.new) (Meets (plan_of P.wants (C.beginning core.old)) P.stands (C.history core.new) moment policy.new client kept kept result scene) }
    ensures can { IfOk result (CanLead P.wants P.stands policy.new client) }
    ensures kept { KeepsCore C.beginning C.history core.old core.new }
    ensures in_step { IsInStep (C.beginning core.new) (C.history core.new) moment }
    ensures spent { OnOk result (spare (C.beginning core.new) (C.history core.new) + 64 ≤ spare (C.beginning core.old) (C.history core.old)) }
    ensures no_fault { IsErrOf result Break.WriteFault → ⊥ }
    ensures others { KeepsOthers (C.beginning core.old) (C.history core.old) (C.beginning core.new) (C.history core.new) client }
    ensures own { (wait_of (C.beginning core.old) (C.history core.old) client ≡ None) ⊎ (ends_wait call ≡ true) →
        IfOk result (λ want. (token : ℕ) → wait_of (C.beginning core.new) (C.history core.new) client ≡ Some token → want ≡ wants.Await token) }
{
    let told = match core.step(alloc, client, moment, call) {
        Ok(told) => told,
        Err(StepError::SegmentFull) => unreachable!(),
        Err(StepError::HistoryFull) => return Err(Break::HistoryFull),
        Err(StepError::NoMemory) => return Err(Break::NoMemory),
    };
    let given = Given::Told {
        moment: told.moment,
        reply: told.reply,
    };
    match policy.resume(alloc, context, given) {
        Ok(want) => Ok(want),
        Err(_) => Err(Break::NoMemory),
    }
}

/// Sends the response that the client's round wants, and tells the round.
fn respond<P: Policy, K: Sink>(
    alloc: Global,
    unwritten: &mut Vec<u8>,
    sink: &mut K,
    client: u32,
    policy: &mut P,
    context: &mut P::Context,
    response: &Text,
) -> Result<Want, Break>
    requires { CanLead P.wants P.stands policy.old client (wants.Respond response.now) }
    ensures sent { (beginning : Beginning) (history : List HistoryEntry) (moment : ℕ) (scene : Scene) → IsAt beginning history moment scene → HasTurn P.wants P.stands policy.old client (wants.Respond response.now) scene →
        Went (plan_of P.wants beginning) scene [] history history (Meets (plan_of P.wants beginning) P.stands history moment policy.new client (pieces (K.held sink.old) unwritten.old.items) (pieces (K.held sink.new) unwritten.new.items) result scene) }
    ensures can { IfOk result (CanLead P.wants P.stands policy.new client) }
    ensures calm { IfOk result (λ want. is_response want ≡ false) }
    ensures sink { UsesSink K.faults sink.old sink.new (IsErrOf result Break.WriteFault) }
{
    let line = match write_response_line(alloc, client, response.bytes()) {
        Ok(line) => line,
        Err(_) => return Err(Break::NoMemory),
    };
    match take_line(unwritten, sink, line.as_slice()) {
        Ok(()) => {}
        Err(broken) => return Err(broken),
    }
    match policy.resume(alloc, context, Given::Sent) {
        Ok(want) => Ok(want),
        Err(_) => Err(Break::NoMemory),
    }
}

fn asks_for_head(request: &BackendRequest) -> bool
    ensures { result ≡ asks_head request.now }
{
    request.head.method.bytes() == b"HEAD".as_slice()
}

/// Begins the exchange that the client's round wants, and keeps the round until the reply comes.
fn begin_exchange<P: Policy, K: Sink>(
    alloc: Global,
    unwritten: &mut Vec<u8>,
    sink: &mut K,
    waiting: &mut Vec<Pending<P>>,
    pending: Pending<P>,
    backend: &Text,
    request: &BackendRequest,
) -> Result<(), Break>
    ensures told { Tells (pieces (K.held sink.old) unwritten.old.items) (pieces (K.held sink.new) unwritten.new.items) (fetch_line pending.number backend.now (sent_text request.now)) result }
    ensures waits { OnOk result (waiting.new.items ≡ waiting.old.items ++ pending ∷ []) }
    ensures sink { UsesSink K.faults sink.old sink.new (IsErrOf result Break.WriteFault) }
{
    let line = match write_fetch_line(alloc, pending.number, backend.bytes(), request) {
        Ok(line) => line,
        Err(_) => return Err(Break::NoMemory),
    };
    match waiting.try_reserve(1) {
        Ok(()) => {}
        Err(_) => return Err(Break::NoMemory),
    }
    match take_line(unwritten, sink, line.as_slice()) {
        Ok(()) => {}
        Err(broken) => return Err(broken),
    }
    match waiting.push(pending) {
        Ok(()) => Ok(()),
        Err(_) => unreachable!(),
    }
}

/// Keeps the client's round until the token is closed.
fn park<P: Policy>(parked: &mut Vec<Kept<P>>, kept: Kept<P>) -> Result<(), Break>
    ensures parks { OnOk result (parked.new.items ≡ parked.old.items ++ kept ∷ []) }
    ensures only { IfErr result (λ broken. broken ≡ Break.NoMemory) }
{
    match parked.push(kept) {
        Ok(()) => Ok(()),
        Err(_) => Err(Break::NoMemory),
    }
}

/// Keeps the client's round where it waits: for a reply, once its exchange is begun, or for a token. A round that wants
/// nothing more is over.
fn rest<C: CacheCore, P: Policy, K: Sink>(
    alloc: Global,
    play: &mut Play<C, P>,
    sink: &mut K,
    client: u32,
    policy: P,
    want: Want,
) -> Result<(), Break>
    requires in_step { IsInStep (C.beginning play.old.core) (C.history play.old.core) play.old.moment }
    requires alone { RunsAlone (C.beginning play.old.core) (stage_of C.history play.old) client want }
    requires rests { rests want ≡ true }
    ensures settled { OnOk result (IsSettled (C.beginning play.new.core) (stage_of C.history play.new)) }
    ensures went { (scene : Scene) → IsStage (plan_of P.wants (C.beginning play.old.core)) P.stands (stage_of C.history play.old) scene → HasTurn P.wants P.stands policy client want scene →
        Went (plan_of P.wants (C.beginning play.old.core)) scene [] (C.history play.old.core) (C.history play.new.core) (ComesTo (plan_of P.wants (C.beginning play.old.core)) P.stands NobodyRuns (change_of C.history K.held play.old play.new sink.old sink.new) result) }
    ensures keeps { Keeps C.beginning C.history K.faults play.old play.new sink.old sink.new (IsErrOf result Break.WriteFault) }
{
    match want {
        Want::Exchange {
            number,
            backend,
            request,
        } => {
            let to_head = asks_for_head(&request);
            let pending = Pending {
                number,
                client,
                to_head,
                policy,
            };
            begin_exchange(
                alloc,
                &mut play.unwritten,
                sink,
                &mut play.waiting,
                pending,
                &backend,
                &request,
            )
        }
        Want::Await(token) => {
            let kept = Kept {
                token,
                client,
                policy,
            };
            park(&mut play.parked, kept)
        }
        Want::Done => Ok(()),
        Want::Ask(_) | Want::Respond(_) => unreachable!(),
    }
}

/// Leads the client's round on, from what it wants, until it waits or is over.
pub(crate) fn run_round<C: CacheCore, P: Policy, K: Sink>(
    alloc: Global,
    play: &mut Play<C, P>,
    context: &mut P::Context,
    sink: &mut K,
    client: u32,
    policy: P,
    want: Want,
) -> Result<(), Break>
    requires in_step { IsInStep (C.beginning play.old.core) (C.history play.old.core) play.old.moment }
    requires can { CanLead P.wants P.stands policy client want }
    requires alone { RunsAlone (C.beginning play.old.core) (stage_of C.history play.old) client want }
    ensures settled { OnOk result (IsSettled (C.beginning play.new.core) (stage_of C.history play.new)) }
    ensures went { (scene : Scene) → IsStage (plan_of P.wants (C.beginning play.old.core)) P.stands (stage_of C.history play.old) scene → HasTurn P.wants P.stands policy client want scene →
        Went (plan_of P.wants (C.beginning play.old.core)) scene [] (C.history play.old.core) (C.history play.new.core) (ComesTo (plan_of P.wants (C.beginning play.old.core)) P.stands NobodyRuns (change_of C.history K.held play.old play.new sink.old sink.new) result) }
    ensures keeps { Keeps C.beginning C.history K.faults play.old play.new sink.old sink.new (IsErrOf result Break.WriteFault) }
{
    let mut policy = policy;
    let mut want = want;
    'wants: loop {
        match want {
            Want::Ask(call) => match ask(
                alloc,
                &mut play.core,
                play.moment,
                client,
                &mut policy,
                context,
                call,
            ) {
                Ok(next) => {
                    want = next;
                    continue 'wants;
                }
                Err(broken) => return Err(broken),
            },
            Want::Respond(response) => match respond(
                alloc,
                &mut play.unwritten,
                sink,
                client,
                &mut policy,
                context,
                &response,
            ) {
                Ok(next) => {
                    want = next;
                    continue 'wants;
                }
                Err(broken) => return Err(broken),
            },
            last => return rest(alloc, play, sink, client, policy, last),
        }
    }
}
