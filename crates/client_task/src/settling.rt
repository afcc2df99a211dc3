// How a step settles where something is wanted.
ghost use Rattle.std.specs.Prelude.{◌≡◌, IfOk, IsErr, option_and_then};
ghost use Rattle.vcl_runs.specs.Runs.{Ran, answered};
ghost use Rattle.client_graph.specs.Wants.{hint_at};
ghost use Rattle.client_graph.specs.Answers.{over};
ghost use Rattle.client_task.specs.Rounds.{Node, Inside, Runs, Moves, evaluator, step_of};
ghost use Rattle.client_task.specs.Standing.{IsAt, IsReady, MayGoOn, Went, SettlesAt, Lowers, weight};

use crate::commands::{Asking, answer_to, take_command};
use crate::{Asked, Place};
use cache_law::rounds::Given;
use client_graph::{ClientWant, Next, Round, State, WaitPoint, ask, lead, take};
use directors::Target;
use std::alloc::{AllocError, Global};
use units::out_of_memory;
use vcl_context::{Answer, Context, Turn};
use vcl_runs::Runner;

/// A place, and what is wanted there.
#[derive(Drop)]
pub(crate) struct Settled<M> {
    pub place: Place<M>,
    pub want: ClientWant,
}

/// Where a run of a subroutine comes to.
#[derive(Drop)]
pub(crate) enum RunStep<M> {
    /// It asks for something.
    Stops(Settled<M>),
    /// It ended, and this comes next.
    Leads(Next),
}

// A run that asks for a call.
fn stop<M>(asking: Asking, state: State, run: M, round: Round) -> RunStep<M>
    ensures { result ≡ RunStep.Stops (record { place = Place.Inside asking.asked state run round; want = ClientWant.Cache asking.call }) }
{
    let Asking { asked, call } = asking;
    RunStep::Stops(Settled {
        place: Place::Inside {
            asked,
            state,
            run,
            round,
        },
        want: ClientWant::Cache(call),
    })
}

// A run goes on by an answer, until it asks for a call or ends.
fn go<M: Runner>(
    alloc: Global,
    program: &M::Program,
    state: State,
    mut run: M,
    round: Round,
    mut answer: Answer,
) -> Result<RunStep<M>, AllocError>
    requires stands { (ran : Ran) × M.stands run program.now ran }
    requires fits { M.fits run answer }
    ensures went { IfOk result (λ run_step. (ran : Ran) → M.stands run program.now ran
        → Went (evaluator M.turns M.targets program.now) (λ run ran. M.stands run program.now ran) M.fits (Runs state (answered answer ran) round) run_step) }
    ensures lowers { IfOk result (Lowers (weight state round)) }
{
    'runs: loop {
        let Ok(turn) = run.resume(alloc, program, answer) else {
            return Err(out_of_memory((state, run, round)));
        };
        match turn {
            Turn::Need(command) => {
                let Ok(found) = take_command(alloc, command) else {
                    return Err(out_of_memory((state, run, round)));
                };
                match found {
                    Some(asking) => return Ok(stop(asking, state, run, round)),
                    None => answer = Answer::Done,
                }
            }
            Turn::End(word, context) => {
                drop(run);
                let next = lead(alloc, state, word, context, round)?;
                return Ok(RunStep::Leads(next));
            }
        }
    }
}

// The subroutine of a state begins.
fn begin<M: Runner>(
    alloc: Global,
    program: &M::Program,
    state: State,
    context: Context,
    round: Round,
) -> Result<RunStep<M>, AllocError>
    ensures went { IfOk result (Went (evaluator M.turns M.targets program.now) (λ run ran. M.stands run program.now ran) M.fits (Moves (Next.Enter state context round))) }
    ensures lowers { IfOk result (Lowers (weight state round)) }
{
    let Ok(run) = M::start(alloc, program, state.subroutine(), context) else {
        return Err(out_of_memory((state, round)));
    };
    go(alloc, program, state, run, round, Answer::Begin)
}

// The target that a fetch is hinted at, where one is asked for.
fn hint_of<M: Runner>(
    alloc: Global,
    program: &M::Program,
    point: &WaitPoint,
) -> Result<Option<Target>, AllocError>
    ensures { IfOk result (λ hint. hint ≡ option_and_then (M.targets program.now) (hint_at point.now)) }
{
    match point.hint() {
        Some(backend) => M::target(alloc, program, backend),
        None => Ok(None),
    }
}

fn rest<M: Runner>(
    alloc: Global,
    program: &M::Program,
    point: WaitPoint,
    round: Round,
) -> Result<Settled<M>, AllocError>
    ensures { IfOk result (SettlesAt (evaluator M.turns M.targets program.now) (λ run ran. M.stands run program.now ran) M.fits (Moves (Next.Rest point round))) }
{
    let Ok(hint) = hint_of::<M>(alloc, program, &point) else {
        return Err(out_of_memory((point, round)));
    };
    let Ok(want) = ask(alloc, hint, &round, &point) else {
        return Err(out_of_memory((point, round)));
    };
    Ok(Settled {
        place: Place::Between { point, round },
        want,
    })
}

// What comes next, until something is wanted.
fn settle<M: Runner>(
    alloc: Global,
    program: &M::Program,
    mut next: Next,
) -> Result<Settled<M>, AllocError>
    ensures { IfOk result (SettlesAt (evaluator M.turns M.targets program.now) (λ run ran. M.stands run program.now ran) M.fits (Moves next)) }
{
    'states: loop {
        match next {
            Next::Rest { point, round } => return rest(alloc, program, point, round),
            Next::Enter {
                state,
                context,
                round,
            } => {
                let run_step = begin(alloc, program, state, context, round)?;
                match run_step {
                    RunStep::Stops(settled) => return Ok(settled),
                    RunStep::Leads(later) => next = later,
                }
            }
        }
    }
}

fn go_on<M: Runner>(
    alloc: Global,
    program: &M::Program,
    state: State,
    run: M,
    round: Round,
    answer: Answer,
) -> Result<Settled<M>, AllocError>
    requires stands { (ran : Ran) × M.stands run program.now ran }
    requires fits { M.fits run answer }
    ensures { IfOk result (λ settled. (ran : Ran) → M.stands run program.now ran
        → SettlesAt (evaluator M.turns M.targets program.now) (λ run ran. M.stands run program.now ran) M.fits (Runs state (answered answer ran) round) settled) }
{
    let run_step = go(alloc, program, state, run, round, answer)?;
    match run_step {
        RunStep::Stops(settled) => Ok(settled),
        RunStep::Leads(next) => settle(alloc, program, next),
    }
}

fn end_round<M: Runner>(
    alloc: Global,
    program: &M::Program,
    round: Round,
) -> Result<Settled<M>, AllocError>
    ensures { IfOk result (SettlesAt (evaluator M.turns M.targets program.now) (λ run ran. M.stands run program.now ran) M.fits (Moves (over round))) }
{
    rest(alloc, program, WaitPoint::Over, round)
}

// A subroutine that asked for something is given this.
fn answer_run<M: Runner>(
    alloc: Global,
    program: &M::Program,
    asked: Asked,
    state: State,
    run: M,
    round: Round,
    given: Given,
) -> Result<Settled<M>, AllocError>
    requires stands { (ran : Ran) × M.stands run program.now ran }
    requires ready { IsReady (M.fits run) asked }
    ensures { IfOk result (λ settled. (ran : Ran) → M.stands run program.now ran
        → SettlesAt (evaluator M.turns M.targets program.now) (λ run ran. M.stands run program.now ran) M.fits (step_of (Inside asked state ran round) given) settled) }
{
    match given {
        Given::Reply(told) => {
            let answer = answer_to(asked, &told.reply);
            drop(told);
            match answer {
                Some(answer) => go_on(alloc, program, state, run, round, answer),
                None => {
                    drop((state, run));
                    end_round(alloc, program, round)
                }
            }
        }
        other => {
            drop((other, state, run));
            end_round(alloc, program, round)
        }
    }
}

/// A place is given something, and settles where something is wanted.
pub(crate) fn take_up<M: Runner>(
    alloc: Global,
    program: &M::Program,
    place: Place<M>,
    given: Given,
) -> Result<Settled<M>, AllocError>
    requires { MayGoOn (λ run ran. M.stands run program.now ran) M.fits place }
    ensures broken { place ≡ Place.Broken → IsErr result }
    ensures settles { IfOk result (λ settled. (node : Node) → IsAt (λ run ran. M.stands run program.now ran) M.fits place node
        → SettlesAt (evaluator M.turns M.targets program.now) (λ run ran. M.stands run program.now ran) M.fits (step_of node given) settled) }
{
    match place {
        Place::Before(next) => {
            drop(given);
            settle(alloc, program, next)
        }
        Place::Inside {
            asked,
            state,
            run,
            round,
        } => answer_run(alloc, program, asked, state, run, round, given),
        Place::Between { point, round } => {
            let next = take(alloc, point, given, round)?;
            settle(alloc, program, next)
        }
        Place::Broken => Err(out_of_memory(given)),
    }
}
