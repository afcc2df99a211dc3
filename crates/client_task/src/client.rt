// A client's round as one value.
ghost use Rattle.std.specs.Prelude.{◌≡◌, [], ◌∷◌, List, IfOk, OnOk, OnErr, IsErr};
ghost use Rattle.cache_law.specs.declared.rounds.Given.{Given as Gift};
ghost use Rattle.client_graph.specs.declared.round.Next.{Next as Opened};
ghost use Rattle.client_graph.specs.Opening.{opening};
ghost use Rattle.client_task.specs.Rounds.{Wants, evaluator};
ghost use Rattle.client_task.specs.Standing.{StandsAt, MayGoOn};

use crate::Place;
use crate::place::Kept;
use crate::settling::take_up;
use cache_law::rounds::{Given, Request};
use client_graph::{ClientWant, open};
use std::alloc::{AllocError, Global};
use vcl_runs::Runner;

/// A client's round; `M` runs its subroutines.
#[derive(Drop)]
pub struct Client<M> {
    place: Kept<M>,
}

impl<M: Runner> Client<M> {
    /// A round before its start. Its number and the number of its VCL are those that its Begin was told; `peer` is the
    /// client's address.
    pub fn start(
        alloc: Global,
        number: u64,
        vcl: u32,
        request: Request,
        peer: [u8; 4],
    ) -> Result<Client<M>, AllocError>
        ensures stands { IfOk result (λ client. (program : M.Program)
            → StandsAt (evaluator M.turns M.targets program) (λ run ran. M.stands run program ran) M.fits (opening number vcl request peer) [] client.place) }
        ensures goes_on { IfOk result (λ client. (program : M.Program) → MayGoOn (λ run ran. M.stands run program ran) M.fits client.place) }
    {
        let next = open(alloc, number, vcl, request, peer)?;
        let place = Kept::new(alloc, Place::Before(next))?;
        Ok(Client { place })
    }

    /// The next want. The program is that of the round's VCL, and what is given answers the last want; what is given first
    /// is `Start`. After want of memory it answers want of memory for ever.
    pub fn resume(
        &mut self,
        alloc: Global,
        program: &M::Program,
        given: Given,
    ) -> Result<ClientWant, AllocError>
        requires { MayGoOn (λ run ran. M.stands run program.now ran) M.fits self.old.place }
        ensures stands { OnOk result ((opened : Opened) (givens : List Gift)
            → StandsAt (evaluator M.turns M.targets program.now) (λ run ran. M.stands run program.now ran) M.fits opened givens self.old.place
            → StandsAt (evaluator M.turns M.targets program.now) (λ run ran. M.stands run program.now ran) M.fits opened (given ∷ givens) self.new.place) }
        ensures wants { IfOk result (λ want. (opened : Opened) (givens : List Gift)
            → StandsAt (evaluator M.turns M.targets program.now) (λ run ran. M.stands run program.now ran) M.fits opened givens self.old.place
            → Wants (evaluator M.turns M.targets program.now) opened (given ∷ givens) want) }
        ensures goes_on { OnOk result (MayGoOn (λ run ran. M.stands run program.now ran) M.fits self.new.place) }
        ensures err { OnErr result (self.new.place ≡ Place.Broken) }
        ensures broken { self.old.place ≡ Place.Broken → IsErr result }
    {
        let before = self.place.replace(Place::Broken);
        let settled = take_up(alloc, program, before, given)?;
        drop(self.place.replace(settled.place));
        Ok(settled.want)
    }
}
