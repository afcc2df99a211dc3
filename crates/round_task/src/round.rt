// A round as one value.
ghost use Rattle.std.specs.Prelude.{◌≡◌, [], ◌∷◌, List, ℕ, IfOk, OnOk, OnErr, IsErr};
ghost use Rattle.cache_law.specs.declared.rounds.Given.{Given as Gift};
ghost use Rattle.cache_law.specs.declared.rounds.Request.{Request as Asked};
ghost use Rattle.vcl_runs.specs.Evaluators.{evaluator};
ghost use Rattle.round_task.specs.Rounds.{Node, Wants, flow_of};
ghost use Rattle.round_task.specs.Standing.{IsAt, MayGoOn, SettlesAt, StandsAt};

use crate::leading::{Settled, open, over, to_client, to_fetch};
use crate::{Place, Want};
use cache_law::rounds::{Given, Request};
use std::alloc::{AllocError, Global};
use std::mem;
use units::out_of_memory;
use vcl_runs::Runner;

/// A round; `M` runs the subroutines of its client and of its fetches.
#[derive(Drop)]
pub struct Round<M> {
    place: Place<M>,
}

// A place is given something, and leads on to where something is wanted.
fn take_up<M: Runner>(
    alloc: Global,
    program: &M::Program,
    drawn: Option<u64>,
    place: Place<M>,
    given: Given,
) -> Result<Settled<M>, AllocError>
    requires { MayGoOn (λ run ran. M.stands run program.now ran) M.fits place }
    ensures broken { place ≡ Place.Broken → IsErr result }
    ensures settles { IfOk result (λ settled. (node : Node) → IsAt (evaluator M.turns M.targets M.default_of program.now) (λ run ran. M.stands run program.now ran) M.fits place node
        → SettlesAt (evaluator M.turns M.targets M.default_of program.now) (λ run ran. M.stands run program.now ran) M.fits drawn (flow_of node given) settled) }
    ensures goes_on { IfOk result (λ settled. MayGoOn (λ run ran. M.stands run program.now ran) M.fits settled.place) }
{
    match place {
        Place::Opening { request, peer } => open(alloc, program, drawn, request, peer, given),
        Place::Client(client) => to_client(alloc, program, drawn, client, given),
        Place::Fetch {
            client,
            number,
            fetch,
        } => to_fetch(alloc, program, drawn, client, number, fetch, given),
        Place::Over => Ok(over(given)),
        Place::Broken => Err(out_of_memory(given)),
    }
}

impl<M: Runner> Round<M> {
    /// A round of the request, before its Begin. That is what it wants first. `peer` is the client's address.
    pub fn start(request: Request, peer: [u8; 4]) -> Round<M>
        ensures stands { (program : M.Program)
            → StandsAt (evaluator M.turns M.targets M.default_of program) (λ run ran. M.stands run program ran) M.fits request peer [] result.place }
        ensures goes_on { (program : M.Program) → MayGoOn (λ run ran. M.stands run program ran) M.fits result.place }
    {
        Round {
            place: Place::Opening { request, peer },
        }
    }

    /// The next want. What is given answers the last want, and is first the answer to the round's Begin. The program is that of the
    /// VCL that the Begin was told. A director of kind random chooses by the word that is drawn, or by the number of the fetch where
    /// none is. After want of memory it answers want of memory for ever.
    pub fn resume(
        &mut self,
        alloc: Global,
        program: &M::Program,
        drawn: Option<u64>,
        given: Given,
    ) -> Result<Want, AllocError>
        requires { MayGoOn (λ run ran. M.stands run program.now ran) M.fits self.old.place }
        ensures stands { OnOk result ((request : Asked) (peer : List ℕ) (givens : List Gift)
            → StandsAt (evaluator M.turns M.targets M.default_of program.now) (λ run ran. M.stands run program.now ran) M.fits request peer givens self.old.place
            → StandsAt (evaluator M.turns M.targets M.default_of program.now) (λ run ran. M.stands run program.now ran) M.fits request peer (given ∷ givens) self.new.place) }
        ensures wants { IfOk result (λ want. (request : Asked) (peer : List ℕ) (givens : List Gift)
            → StandsAt (evaluator M.turns M.targets M.default_of program.now) (λ run ran. M.stands run program.now ran) M.fits request peer givens self.old.place
            → Wants (evaluator M.turns M.targets M.default_of program.now) drawn request peer (given ∷ givens) want) }
        ensures goes_on { OnOk result (MayGoOn (λ run ran. M.stands run program.now ran) M.fits self.new.place) }
        ensures err { OnErr result (self.new.place ≡ Place.Broken) }
        ensures broken { self.old.place ≡ Place.Broken → IsErr result }
    {
        let place = mem::replace(&mut self.place, Place::Broken);
        let settled = take_up(alloc, program, drawn, place, given)?;
        let Settled { place, want } = settled;
        self.place = place;
        Ok(want)
    }
}
