// What keepers are told of connections.
ghost use Rattle.std.specs.Prelude.{◌≡◌, ◌+◌, ◌<◌, ◌≤◌, ℕ, List, [], ◌∷◌, ◌++◌, OnOk, OnErr};
ghost use Rattle.server.specs.Keeping.{IsTold, tally_of};
ghost use Rattle.server.specs.declared.keeping.Event.{Event as Happening};

use crate::tally::Tally;
use connection::Ended;
use round_lead::Round;
use std::alloc::{AllocError, Global};

/// What a keeper is told of a connection: each of its rounds as it was led, and then that it is over.
#[derive(Drop)]
pub enum Event<L> {
    /// A round was led: what was read, what was answered, and what was sent.
    Led(Round),
    /// The connection ended so, and is shut.
    Over(L, Ended),
}

/// Who is told what a worker does. It keeps of that what it wants, and counts.
pub trait Keeper<L>: Drop {
    /// These are all the events that it was told, in their order.
    ghost Told: { Self → List (Happening L) → Type 0 };

    /// For how many events more it has room at least.
    ghost room: { Self → ℕ };

    /// One that was told nothing.
    fn begin(alloc: Global) -> Self
        ensures { Told result [] };

    /// Makes room for so many events more.
    fn reserve(&mut self, count: usize) -> Result<(), AllocError>
        ensures told { IsTold Told self.old self.new [] }
        ensures room { OnOk result (count ≤ room self.new) }
        ensures same { OnErr result (room self.old ≤ room self.new) };

    /// Tells it this event.
    fn keep(&mut self, event: Event<L>)
        requires { 0 < room self.old }
        ensures told { IsTold Told self.old self.new (event ∷ []) }
        ensures room { room self.old ≤ room self.new + 1 };

    /// What it counted.
    fn tally(&self) -> Tally
        ensures { (events : List (Happening L)) → Told self.now events → result ≡ tally_of events };
}
