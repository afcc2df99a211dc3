// The keeper that counts, and lets go of what it is told.
ghost use Rattle.std.specs.Prelude.{◌≡◌, [], ◌∷◌, false};
ghost use Rattle.server.specs.Keeping.{IsTold, added, found_full, tally_of};

use crate::keeping::{Event, Keeper};
use connection::Ended;
use std::alloc::{AllocError, Global};

/// How many rounds there were, as far as 64 bits go, and whether a call of a connection's last round didn't fit the history.
#[derive(Clone, Copy, Debug, PartialEq, Eq)]
pub struct Tally {
    pub rounds: u64,
    pub found_full: bool,
}

impl Tally {
    /// What nothing counts.
    pub fn none() -> Tally
        ensures { result ≡ record { rounds = 0; found_full = false } }
    {
        Tally {
            rounds: 0,
            found_full: false,
        }
    }

    /// What both count.
    pub fn plus(self, other: Tally) -> Tally
        ensures { result ≡ added self other }
    {
        Tally {
            rounds: self.rounds.saturating_add(other.rounds),
            found_full: self.found_full || other.found_full,
        }
    }

    /// What an event counts.
    pub fn of<L>(event: &Event<L>) -> Tally
        ensures { result ≡ tally_of (event.now ∷ []) }
    {
        match event {
            Event::Led(_) => Tally {
                rounds: 1,
                found_full: false,
            },
            Event::Over(_, ended) => Tally {
                rounds: 0,
                found_full: found_full(*ended),
            },
        }
    }
}

// Whether a connection that ended so found the history full.
fn found_full(ended: Ended) -> bool
    ensures { result ≡ found_full ended }
{
    matches!(ended, Ended::HistoryFull)
}

impl<L: Drop> Keeper<L> for Tally {
    ghost Told = { λ tally events. tally ≡ tally_of events };

    ghost room = { λ _. 18446744073709551615 };

    fn begin(_alloc: Global) -> Tally {
        Tally::none()
    }

    fn reserve(&mut self, _count: usize) -> Result<(), AllocError> {
        Ok(())
    }

    fn keep(&mut self, event: Event<L>)
        ensures told { IsTold (λ tally events. tally ≡ tally_of events) self.old self.new (event ∷ []) }
    {
        *self = self.plus(Tally::of(&event));
    }

    fn tally(&self) -> Tally {
        *self
    }
}
