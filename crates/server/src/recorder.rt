// The keeper that keeps all that it is told.
ghost use Rattle.std.specs.Prelude.{◌≡◌, ◌+◌, ◌-◌, ◌<◌, ◌≤◌, ◌∷◌, [], vec_len, vec_capacity};
ghost use Rattle.server.specs.Keeping.{IsTold, tally_of};

use crate::keeping::{Event, Keeper};
use crate::tally::Tally;
use std::alloc::{AllocError, Global};

/// The events of connections, in the order in which they were told, and what they count.
#[derive(Drop)]
pub struct Recorder<L> {
    pub events: Vec<Event<L>>,
    pub counts: Tally,
}

impl<L: Drop> Keeper<L> for Recorder<L> {
    ghost Told = { λ recorder events. (recorder.events.items ≡ events) × (recorder.counts ≡ tally_of events) };

    ghost room = { λ recorder. vec_capacity recorder.events - vec_len recorder.events };

    fn begin(alloc: Global) -> Recorder<L> {
        Recorder {
            events: Vec::new(alloc),
            counts: Tally::none(),
        }
    }

    fn reserve(&mut self, count: usize) -> Result<(), AllocError> {
        self.events.reserve(count)
    }

    fn keep(&mut self, event: Event<L>)
        requires { 0 < vec_capacity self.old.events - vec_len self.old.events }
        ensures told { IsTold (λ recorder events. (recorder.events.items ≡ events) × (recorder.counts ≡ tally_of events)) self.old self.new (event ∷ []) }
        ensures room { vec_capacity self.old.events - vec_len self.old.events ≤ vec_capacity self.new.events - vec_len self.new.events + 1 }
    {
        self.counts = self.counts.plus(Tally::of(&event));
        self.events.push_reserved(event);
    }

    fn tally(&self) -> Tally {
        self.counts
    }
}
