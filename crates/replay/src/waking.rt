// Rounds that wait for a token, woken in the order in which they were parked.
ghost use Rattle.std.specs.Prelude.{◌≡◌, ◌+◌, ◌≤◌, ◌<◌, position, Some, [], length, OnOk, IsErrOf};
ghost use Rattle.cache_law.specs.History.{reached};
ghost use Rattle.cache_law.specs.State.{is_closed};
ghost use Rattle.replay.specs.Plan.{plan_of};
ghost use Rattle.replay.specs.Scene.{AtRest, Scene};
ghost use Rattle.replay.specs.declared.policy.Want.{Want as Wish};
ghost use Rattle.replay.specs.Waits.{IsSettled, RunsAlone};
ghost use Rattle.replay.specs.Went.{CanLead, ComesTo, HasTurn, IsInStep, IsSet, IsStage, Keeps, NobodyRuns, Went, change_of, spare, stage_of};

use crate::rounds::{Break, Kept, Play, ask, run_round};
use crate::{Given, Policy, Want};
use cache_law::CacheCore;
use std::alloc::Global;
use wire::Sink;

/// The place of the first round whose token is closed.
fn first_free<C: CacheCore, P>(core: &C, parked: &[Kept<P>]) -> Option<usize>
    ensures { result ≡ position (λ kept. is_closed (reached (C.beginning core.now) (C.history core.now)).fetches kept.token) parked.now }
{
    parked.iter().position(|kept| core.closed(kept.token))
}

/// Wakes the first round whose token is closed, which stands at this place, and leads it on.
fn wake<C: CacheCore, P: Policy, K: Sink>(
    alloc: Global,
    play: &mut Play<C, P>,
    context: &mut P::Context,
    sink: &mut K,
    place: usize,
) -> Result<(), Break>
    requires in_step { IsInStep (C.beginning play.old.core) (C.history play.old.core) play.old.moment }
    requires set { IsSet (plan_of P.wants (C.beginning play.old.core)) P.stands (stage_of C.history play.old) }
    requires settled { IsSettled (C.beginning play.old.core) (stage_of C.history play.old) }
    requires free { position (λ kept. is_closed (reached (C.beginning play.old.core) (C.history play.old.core)).fetches kept.token) play.old.parked.items ≡ Some place }
    ensures went { (scene : Scene) → IsStage (plan_of P.wants (C.beginning play.old.core)) P.stands (stage_of C.history play.old) scene → NobodyRuns scene →
        Went (plan_of P.wants (C.beginning play.old.core)) scene [] (C.history play.old.core) (C.history play.new.core) (ComesTo (plan_of P.wants (C.beginning play.old.core)) P.stands NobodyRuns (change_of C.history K.held play.old play.new sink.old sink.new) result) }
    ensures keeps { Keeps C.beginning C.history K.faults play.old play.new sink.old sink.new (IsErrOf result Break.WriteFault) }
    ensures settled { OnOk result (IsSettled (C.beginning play.new.core) (stage_of C.history play.new)) }
    ensures spent { OnOk result (spare (C.beginning play.new.core) (C.history play.new.core) < spare (C.beginning play.old.core) (C.history play.old.core)) }
{
    let Kept {
        token: _,
        client,
        policy,
    } = play.parked.remove(place);
    let mut policy = policy;
    let call = match policy.resume(alloc, context, Given::Closed) {
        Ok(Want::Ask(call)) => call,
        Ok(_) => unreachable!(),
        Err(_) => return Err(Break::NoMemory),
    };
    let asked = ask(
        alloc,
        &mut play.core,
        play.moment,
        client,
        &mut policy,
        context,
        call,
    );
    match asked {
        Ok(want) => run_round(alloc, play, context, sink, client, policy, want),
        Err(broken) => Err(broken),
    }
}

/// Wakes rounds until nobody waits for a token that is closed.
fn settle<C: CacheCore, P: Policy, K: Sink>(
    alloc: Global,
    play: &mut Play<C, P>,
    context: &mut P::Context,
    sink: &mut K,
) -> Result<(), Break>
    requires in_step { IsInStep (C.beginning play.old.core) (C.history play.old.core) play.old.moment }
    requires set { IsSet (plan_of P.wants (C.beginning play.old.core)) P.stands (stage_of C.history play.old) }
    requires settled { IsSettled (C.beginning play.old.core) (stage_of C.history play.old) }
    ensures went { (scene : Scene) → IsStage (plan_of P.wants (C.beginning play.old.core)) P.stands (stage_of C.history play.old) scene → NobodyRuns scene →
        Went (plan_of P.wants (C.beginning play.old.core)) scene [] (C.history play.old.core) (C.history play.new.core) (ComesTo (plan_of P.wants (C.beginning play.old.core)) P.stands AtRest (change_of C.history K.held play.old play.new sink.old sink.new) result) }
    ensures keeps { Keeps C.beginning C.history K.faults play.old play.new sink.old sink.new (IsErrOf result Break.WriteFault) }
    ensures settled { OnOk result (IsSettled (C.beginning play.new.core) (stage_of C.history play.new)) }
{
    'wakes: while let Some(place) = first_free(&play.core, play.parked.as_slice()) {
        match wake(alloc, play, context, sink, place) {
            Ok(()) => {}
            Err(broken) => return Err(broken),
        }
    }
    Ok(())
}

/// Leads the client's round on, from what it wants, and then those whose tokens are closed, until the schedule is at
/// rest.
pub(crate) fn lead<C: CacheCore, P: Policy, K: Sink>(
    alloc: Global,
    play: &mut Play<C, P>,
    context: &mut P::Context,
    sink: &mut K,
    client: u32,
    policy: P,
    want: Want,
) -> Result<(), Break>
    requires in_step { IsInStep (C.beginning play.old.core) (C.history play.old.core) play.old.moment }
    requires turn { (scene : Scene) × IsStage (plan_of P.wants (C.beginning play.old.core)) P.stands (stage_of C.history play.old) scene × HasTurn P.wants P.stands policy client want scene }
    requires alone { RunsAlone (C.beginning play.old.core) (stage_of C.history play.old) client want }
    ensures went { (scene : Scene) → IsStage (plan_of P.wants (C.beginning play.old.core)) P.stands (stage_of C.history play.old) scene → HasTurn P.wants P.stands policy client want scene →
        Went (plan_of P.wants (C.beginning play.old.core)) scene [] (C.history play.old.core) (C.history play.new.core) (ComesTo (plan_of P.wants (C.beginning play.old.core)) P.stands AtRest (change_of C.history K.held play.old play.new sink.old sink.new) result) }
    ensures keeps { Keeps C.beginning C.history K.faults play.old play.new sink.old sink.new (IsErrOf result Break.WriteFault) }
    ensures settled { OnOk result (IsSettled (C.beginning play.new.core) (stage_of C.history play.new)) }
{
    match run_round(alloc, play, context, sink, client, policy, want) {
        Ok(()) => settle(alloc, play, context, sink),
        Err(broken) => Err(broken),
    }
}
