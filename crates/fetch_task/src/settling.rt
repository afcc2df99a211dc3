// How a fetch comes to where it rests, and what it wants there.
ghost use Rattle.std.specs.Prelude.{◌≡◌, ◌<◌, IfOk, option_and_then};
ghost use Rattle.fetch_graph.specs.Wants.{asks};
ghost use Rattle.fetch_task.specs.Fetches.{Settles, goes_on, target_of as target_for, target_at as target_where};
ghost use Rattle.vcl_runs.specs.Evaluators.{evaluator};
ghost use Rattle.fetch_task.specs.Standing.{LeadsTo, weight, weight_of};

use cache_law::rounds::Given;
use directors::Target;
use fetch_graph::{FetchWant, Next, State, WaitPoint, abandon, ask, lead, take};
use std::alloc::{AllocError, Global};
use vcl_context::{Answer, Context, Turn};
use vcl_runs::Runner;
use vcl_values::Backend;

/// A fetch where it rests.
#[derive(Drop)]
pub(crate) struct Stop {
    pub point: WaitPoint,
    pub fetch: fetch_graph::Fetch,
}

/// How a fetch goes on from its place. What it is given first begins it.
pub(crate) fn go_on(alloc: Global, place: Next, given: Given) -> Result<Next, AllocError>
    ensures { IfOk result (λ next. next ≡ goes_on place given) }
{
    match place {
        Next::Enter {
            state,
            context,
            fetch,
        } => Ok(Next::Enter {
            state,
            context,
            fetch,
        }),
        Next::Rest { point, fetch } => take(alloc, point, given, fetch),
    }
}

// The subroutine of a state runs. It has nothing to ask for: where it does, the fetch is given up.
fn run<M: Runner>(
    alloc: Global,
    program: &M::Program,
    state: State,
    context: Context,
    fetch: fetch_graph::Fetch,
) -> Result<Next, AllocError>
    ensures leads { IfOk result (LeadsTo (evaluator M.turns M.targets M.default_of program.now) (Next.Enter state context fetch)) }
    ensures lowers { IfOk result (λ next. weight_of next < weight state fetch) }
{
    let mut run = M::start(alloc, program, state.subroutine(), context)?;
    let turn = run.resume(alloc, program, Answer::Begin)?;
    match turn {
        Turn::End(word, left) => lead(alloc, state, word, left, fetch),
        Turn::Need(_) => Ok(abandon(fetch)),
    }
}

/// What comes next, until the fetch rests.
pub(crate) fn settle<M: Runner>(
    alloc: Global,
    program: &M::Program,
    mut next: Next,
) -> Result<Stop, AllocError>
    ensures { IfOk result (λ stop. Settles (evaluator M.turns M.targets M.default_of program.now) next (Next.Rest stop.point stop.fetch)) }
{
    'states: loop {
        match next {
            Next::Rest { point, fetch } => return Ok(Stop { point, fetch }),
            Next::Enter {
                state,
                context,
                fetch,
            } => {
                let later = run::<M>(alloc, program, state, context, fetch)?;
                next = later;
            }
        }
    }
}

// What the program takes the backend for that VCL chose.
fn chosen_target<M: Runner>(
    alloc: Global,
    program: &M::Program,
    backend: &Option<Backend>,
) -> Result<Option<Target>, AllocError>
    ensures { IfOk result (λ target. target ≡ option_and_then (M.targets program.now) backend.now) }
{
    match backend {
        Some(backend) => M::target(alloc, program, backend),
        None => Ok(None),
    }
}

// What a request is sent to where this was chosen.
fn target_of<M: Runner>(
    alloc: Global,
    program: &M::Program,
    backend: &Option<Backend>,
) -> Result<Target, AllocError>
    ensures { IfOk result (λ target. target ≡ target_for (evaluator M.turns M.targets M.default_of program.now) backend.now) }
{
    let chosen = chosen_target::<M>(alloc, program, backend)?;
    match chosen {
        Some(target) => Ok(target),
        None => M::default_target(alloc, program),
    }
}

fn target_at<M: Runner>(
    alloc: Global,
    program: &M::Program,
    point: &WaitPoint,
) -> Result<Target, AllocError>
    ensures { IfOk result (λ target. target ≡ target_where (evaluator M.turns M.targets M.default_of program.now) point.now) }
{
    match point {
        WaitPoint::Pick { context } => target_of::<M>(
            alloc,
            program,
            &context.fetch_request.backend,
        ),
        WaitPoint::Ask { .. } | WaitPoint::Insert { .. } | WaitPoint::Drop | WaitPoint::Over(_) => {
            M::default_target(alloc, program)
        }
    }
}

/// What is wanted where the fetch rests.
pub(crate) fn want_at<M: Runner>(
    alloc: Global,
    program: &M::Program,
    drawn: u64,
    stop: &Stop,
) -> Result<FetchWant, AllocError>
    ensures { IfOk result (λ want. want ≡ asks (target_where (evaluator M.turns M.targets M.default_of program.now) stop.now.point) drawn stop.now.fetch stop.now.point) }
{
    let target = target_at::<M>(alloc, program, &stop.point)?;
    ask(alloc, target, drawn, &stop.fetch, &stop.point)
}
