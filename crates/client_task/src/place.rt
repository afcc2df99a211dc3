// Where a client's round stands.
ghost use Rattle.std.specs.Prelude.{◌≡◌, IfOk};
ghost use Rattle.client_task.specs.declared.place.Place.{Place as Placed};

use client_graph::{Next, Round, State, WaitPoint};
use std::alloc::{AllocError, Global};
use std::marker::Model;
use std::mem;

/// What a subroutine asked for.
#[derive(Clone, Copy, Debug, PartialEq, Eq)]
pub enum Asked {
    Ban,
    Xkey,
}

/// A place in a round; `M` runs its subroutines.
#[derive(Drop)]
pub enum Place<M> {
    /// Before its start.
    Before(Next),
    /// In a subroutine that asked for something.
    Inside {
        asked: Asked,
        state: State,
        run: M,
        round: Round,
    },
    /// Between subroutines.
    Between {
        point: WaitPoint,
        round: Round,
    },
    /// Memory was wanting.
    Broken,
}

/// A place on the heap, so that its round is small to move.
#[derive(Drop)]
pub(crate) struct Kept<M> {
    at: Box<Place<M>>,
}

impl<M> Model for Kept<M> {
    ghost Value = { Placed M };

    ghost view = { λ kept. kept.at.value };
}

impl<M: Drop> Kept<M> {
    pub(crate) fn new(alloc: Global, place: Place<M>) -> Result<Kept<M>, AllocError>
        ensures { IfOk result (λ kept. kept ≡ place) }
    {
        Ok(Kept {
            at: Box::new(alloc, place)?,
        })
    }

    /// Another place takes the place of this one.
    pub(crate) fn replace(&mut self, place: Place<M>) -> Place<M>
        ensures old { result ≡ self.old }
        ensures new { self.new ≡ place }
    {
        mem::replace(&mut *self.at, place)
    }
}
