// A fetch as one value.
ghost use Rattle.std.specs.Prelude.{◌≡◌, ◌∷◌, List, Some, None, IfOk, OnOk, OnErr, IsErr};
ghost use Rattle.cache_law.specs.declared.rounds.Given.{Given as Gift};
ghost use Rattle.fetch_graph.specs.declared.fetch.Next.{Next as Opened};
ghost use Rattle.fetch_graph.specs.Opening.{opening};
ghost use Rattle.fetch_task.specs.Fetches.{Wants};
ghost use Rattle.vcl_runs.specs.Evaluators.{evaluator};
ghost use Rattle.fetch_task.specs.Standing.{StandsAt};

use crate::settling::{go_on, settle, want_at};
use cache_law::rounds::{Given, Order};
use fetch_graph::{FetchWant, Next, open};
use std::alloc::{AllocError, Global};
use vcl_runs::Runner;

/// A fetch.
#[derive(Drop)]
pub struct Fetch {
    // Where it stands. None once memory was wanting.
    place: Option<Next>,
}

impl Fetch {
    /// The fetch of an order, before its start.
    pub fn start(alloc: Global, order: Order) -> Result<Fetch, AllocError>
        ensures { IfOk result (λ fetch. fetch.place ≡ Some (opening order)) }
    {
        Ok(Fetch {
            place: Some(open(alloc, order)?),
        })
    }

    /// The next want. The program is that of the order's VCL, and `drawn` the word by which a director of kind random
    /// chooses. What is given answers the last want; what is given first is `Start`. After want of memory it answers want of
    /// memory for ever.
    pub fn resume<M: Runner>(
        &mut self,
        alloc: Global,
        program: &M::Program,
        drawn: u64,
        given: Given,
    ) -> Result<FetchWant, AllocError>
        ensures stands { OnOk result ((opened : Opened) (givens : List Gift)
            → StandsAt (evaluator M.turns M.targets M.default_of program.now) opened givens self.old.place
            → StandsAt (evaluator M.turns M.targets M.default_of program.now) opened (given ∷ givens) self.new.place) }
        ensures wants { IfOk result (λ want. (opened : Opened) (givens : List Gift)
            → StandsAt (evaluator M.turns M.targets M.default_of program.now) opened givens self.old.place
            → Wants (evaluator M.turns M.targets M.default_of program.now) drawn opened (given ∷ givens) want) }
        ensures err { OnErr result (self.new.place ≡ None) }
        ensures broken { self.old.place ≡ None → IsErr result }
    {
        let place = self.place.take().ok_or(AllocError)?;
        let next = go_on(alloc, place, given)?;
        let stop = settle::<M>(alloc, program, next)?;
        let want = want_at::<M>(alloc, program, drawn, &stop)?;
        self.place = Some(Next::Rest {
            point: stop.point,
            fetch: stop.fetch,
        });
        Ok(want)
    }
}
