// Events in turn, over one cache and one sink.
ghost use Rattle.std.specs.Prelude.{◌≡◌, ◌+◌, ◌||◌, ◌==◌, ◌∷◌, length, position, [], IfErr, IfOk, OnErr, OnOk, Err};
ghost use Rattle.std.specs.List.{list_any};
ghost use Rattle.replay.specs.Plan.{plan_of};
ghost use Rattle.replay.specs.Scene.{AtRest, Scene, opening_scene};
ghost use Rattle.replay.specs.Swept.{IsHeardSo, lurks_of};
ghost use Rattle.replay.specs.Waits.{IsSettled};
ghost use Rattle.replay.specs.Went.{IsInStep, IsSet, IsStage, Keeps, Plays, PlaysAll, change_of, stage_of};

use crate::exchanges::hear;
use crate::rounds::{Break, Kept, Pending, Play};
use crate::waking::lead;
use crate::{Aside, Event, Given, Heard, NumberedEvent, Policy, Request, Want};
use ban_lurker::LurkCore;
use cache_law::CacheCore;
use http_heads::Got;
use std::alloc::{AllocError, Global};
use units::Sequence;
use wire::Sink;

/// Why an event isn't played to its end.
#[derive(Clone, Copy, Debug)]
pub(crate) enum Stop {
    /// A request of a client that is under way, a reply that no round waits for, or a probe of a backend that isn't probed.
    Idle,
    Broken(Break),
}

/// Whether the client has a round that waits for a reply.
fn waits<P>(waiting: &[Pending<P>], client: u32) -> bool
    ensures { result ≡ list_any (λ kept. kept.client == client) waiting.now }
{
    waiting.iter().any(|kept| kept.client == client)
}

/// Whether the client has a round that waits for a token.
fn is_parked<P>(parked: &[Kept<P>], client: u32) -> bool
    ensures { result ≡ list_any (λ kept. kept.client == client) parked.now }
{
    parked.iter().any(|kept| kept.client == client)
}

/// Whether the client has a round that waits.
fn is_busy<C, P>(play: &Play<C, P>, client: u32) -> bool
    ensures { result ≡ (list_any (λ kept. kept.client == client) play.now.waiting.items || list_any (λ kept. kept.client == client) play.now.parked.items) }
{
    waits(play.waiting.as_slice(), client) || is_parked(play.parked.as_slice(), client)
}

/// The place of the first round that waits for the number.
fn place_of<P>(waiting: &[Pending<P>], number: u64) -> Option<usize>
    ensures { result ≡ position (λ kept. kept.number == number) waiting.now }
{
    waiting.iter().position(|kept| kept.number == number)
}

/// Begins a round at the moment: its policy, and what it wants first.
fn begin_round<P: Policy>(
    alloc: Global,
    context: &mut P::Context,
    moment: u64,
    request: Request,
) -> Result<(P, Want), AllocError>
    ensures { IfOk result (λ begun. P.stands begun.0 request (Given.Start moment ∷ []) × P.wants request (Given.Start moment ∷ []) begun.1) }
{
    let mut policy = P::start(alloc, request)?;
    let want = policy.resume(alloc, context, Given::Start { moment })?;
    Ok((policy, want))
}

/// Hears a request, and leads the round that it begins.
fn hear_request<C: CacheCore, P: Policy, K: Sink>(
    alloc: Global,
    play: &mut Play<C, P>,
    context: &mut P::Context,
    sink: &mut K,
    request: Request,
) -> Result<(), Stop>
    requires in_step { IsInStep (C.beginning play.old.core) (C.history play.old.core) play.old.moment }
    requires set { IsSet (plan_of P.wants (C.beginning play.old.core)) P.stands (stage_of C.history play.old) }
    requires settled { IsSettled (C.beginning play.old.core) (stage_of C.history play.old) }
    ensures plays { (scene : Scene) → IsStage (plan_of P.wants (C.beginning play.old.core)) P.stands (stage_of C.history play.old) scene → AtRest scene →
        Plays (plan_of P.wants (C.beginning play.old.core)) P.stands (change_of C.history K.held play.old play.new sink.old sink.new) scene (Event.Request request) result }
    ensures keeps { Keeps C.beginning C.history K.faults play.old play.new sink.old sink.new (result ≡ Err (Stop.Broken Break.WriteFault)) }
    ensures settled { OnOk result (IsSettled (C.beginning play.new.core) (stage_of C.history play.new)) }
{
    let client = request.client;
    if is_busy(play, client) {
        drop(request);
        return Err(Stop::Idle);
    }
    let (policy, want) = match begin_round::<P>(alloc, context, play.moment, request) {
        Ok(begun) => begun,
        Err(_) => return Err(Stop::Broken(Break::NoMemory)),
    };
    match lead(alloc, play, context, sink, client, policy, want) {
        Ok(()) => Ok(()),
        Err(broken) => Err(Stop::Broken(broken)),
    }
}

/// Hears the reply to a fetch, and leads the round on that waits for it.
fn hear_reply<C: CacheCore, P: Policy, K: Sink>(
    alloc: Global,
    play: &mut Play<C, P>,
    context: &mut P::Context,
    sink: &mut K,
    fetch: u64,
    heard: Heard,
) -> Result<(), Stop>
    requires in_step { IsInStep (C.beginning play.old.core) (C.history play.old.core) play.old.moment }
    requires set { IsSet (plan_of P.wants (C.beginning play.old.core)) P.stands (stage_of C.history play.old) }
    requires settled { IsSettled (C.beginning play.old.core) (stage_of C.history play.old) }
    ensures plays { (scene : Scene) → IsStage (plan_of P.wants (C.beginning play.old.core)) P.stands (stage_of C.history play.old) scene → AtRest scene →
        Plays (plan_of P.wants (C.beginning play.old.core)) P.stands (change_of C.history K.held play.old play.new sink.old sink.new) scene (Event.Reply fetch heard) result }
    ensures keeps { Keeps C.beginning C.history K.faults play.old play.new sink.old sink.new (result ≡ Err (Stop.Broken Break.WriteFault)) }
    ensures settled { OnOk result (IsSettled (C.beginning play.new.core) (stage_of C.history play.new)) }
{
    let place = match place_of(play.waiting.as_slice(), fetch) {
        Some(place) => place,
        None => return Err(Stop::Idle),
    };
    let Pending {
        number: _,
        client,
        to_head,
        policy,
    } = play.waiting.remove(place);
    let mut policy = policy;
    let exchange = match hear(alloc, to_head, heard) {
        Ok(exchange) => exchange,
        Err(_) => return Err(Stop::Broken(Break::NoMemory)),
    };
    let got = Got {
        moment: play.moment,
        exchange,
    };
    let want = match policy.resume(alloc, context, Given::Came(got)) {
        Ok(want) => want,
        Err(_) => return Err(Stop::Broken(Break::NoMemory)),
    };
    match lead(alloc, play, context, sink, client, policy, want) {
        Ok(()) => Ok(()),
        Err(broken) => Err(Stop::Broken(broken)),
    }
}

/// The lurker goes over stored objects of the cache, and what it says is noted.
fn lurk<C: LurkCore>(
    alloc: Global,
    core: &mut C,
    swept: &mut Vec<u32>,
    count: u32,
) -> Result<(), Break>
    ensures history { C.history core.new ≡ C.history core.old }
    ensures same { C.beginning core.new ≡ C.beginning core.old }
    ensures noted { OnOk result (length swept.new.items ≡ length swept.old.items + 1) }
    ensures unnoted { OnErr result (swept.new.items ≡ swept.old.items) }
    ensures only { IfErr result (λ broken. broken ≡ Break.NoMemory) }
{
    match swept.try_reserve(1) {
        Ok(()) => {}
        Err(_) => return Err(Break::NoMemory),
    }
    match core.lurk(alloc, count) {
        Ok(number) => match swept.push(number) {
            Ok(()) => Ok(()),
            Err(_) => unreachable!(),
        },
        Err(_) => Err(Break::NoMemory),
    }
}

/// Plays one event.
fn play_event<C: LurkCore, P: Policy, K: Sink>(
    alloc: Global,
    play: &mut Play<C, P>,
    context: &mut P::Context,
    sink: &mut K,
    swept: &mut Vec<u32>,
    event: Event,
) -> Result<(), Stop>
    requires in_step { IsInStep (C.beginning play.old.core) (C.history play.old.core) play.old.moment }
    requires set { IsSet (plan_of P.wants (C.beginning play.old.core)) P.stands (stage_of C.history play.old) }
    requires settled { IsSettled (C.beginning play.old.core) (stage_of C.history play.old) }
    ensures plays { (scene : Scene) → IsStage (plan_of P.wants (C.beginning play.old.core)) P.stands (stage_of C.history play.old) scene → AtRest scene →
        Plays (plan_of P.wants (C.beginning play.old.core)) P.stands (change_of C.history K.held play.old play.new sink.old sink.new) scene event result }
    ensures keeps { Keeps C.beginning C.history K.faults play.old play.new sink.old sink.new (result ≡ Err (Stop.Broken Break.WriteFault)) }
    ensures settled { OnOk result (IsSettled (C.beginning play.new.core) (stage_of C.history play.new)) }
    ensures noted { OnOk result (length swept.new.items ≡ length swept.old.items + lurks_of event) }
    ensures unnoted { OnErr result (swept.new.items ≡ swept.old.items) }
{
    match event {
        Event::Moment(moment) => {
            play.moment = play.moment.max(moment);
            Ok(())
        }
        Event::Request(request) => {
            hear_request(alloc, play, context, sink, request.into_inner())
        }
        Event::Reply { fetch, heard } => hear_reply(alloc, play, context, sink, fetch, heard),
        Event::Aside(Aside::Lurk(count)) => match lurk(alloc, &mut play.core, swept, count) {
            Ok(()) => Ok(()),
            Err(broken) => Err(Stop::Broken(broken)),
        },
        Event::Aside(Aside::Probe { backend, .. }) => {
            drop(backend);
            Err(Stop::Idle)
        }
    }
}

/// Why the events of a session aren't all played: the line of an idle one, or what broke them off.
#[derive(Clone, Copy, Debug)]
pub(crate) enum Halt {
    Idle(u32),
    Broken(Break),
}

/// Plays the events in order. Each is gone once it is played.
pub(crate) fn play_events<C: LurkCore, P: Policy, K: Sink>(
    alloc: Global,
    play: &mut Play<C, P>,
    context: &mut P::Context,
    sink: &mut K,
    swept: &mut Vec<u32>,
    events: Sequence<NumberedEvent>,
) -> Result<(), Halt>
    requires in_step { IsInStep (C.beginning play.old.core) (C.history play.old.core) play.old.moment }
    requires opens { IsStage (plan_of P.wants (C.beginning play.old.core)) P.stands (stage_of C.history play.old) (opening_scene (plan_of P.wants (C.beginning play.old.core))) }
    requires settled { IsSettled (C.beginning play.old.core) (stage_of C.history play.old) }
    requires fresh { swept.old.items ≡ [] }
    ensures heard { IsHeardSo events (length swept.new.items) result }
    ensures plays { PlaysAll (plan_of P.wants (C.beginning play.old.core)) P.stands (change_of C.history K.held play.old play.new sink.old sink.new) events result }
    ensures keeps { Keeps C.beginning C.history K.faults play.old play.new sink.old sink.new (result ≡ Err (Halt.Broken Break.WriteFault)) }
{
    for numbered in events.into_vec() {
        let NumberedEvent { number, event } = numbered;
        let stop = match play_event(alloc, play, context, sink, swept, event) {
            Ok(()) => continue,
            Err(stop) => stop,
        };
        match stop {
            Stop::Idle => return Err(Halt::Idle(number)),
            Stop::Broken(broken) => return Err(Halt::Broken(broken)),
        }
    }
    Ok(())
}
