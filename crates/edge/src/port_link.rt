// Connections over TCP that came in at a port, as workers have them.
ghost use Rattle.std.specs.Prelude.{◌≡◌, None, true};
ghost use Rattle.wire.specs.declared.peer.Peer.TheVariants.{Accepted};

use crate::Outside;
use crate::holding::Holding;
use crate::shared::{Edge, Handed};
use std::alloc::Global;
use std::rt::Files;
use std::sync::Arc;
use wire::{Failed, Link, Readiness};

/// A connection that a client made, or a stretch of one: it has whole requests alone, so that no read waits for the client. Between two
/// requests it ends where others wait for a worker, and where the run is to end. It tells nothing of what goes over it.
#[derive(Drop)]
pub struct PortLink<R: Outside> {
    /// Where the client is.
    pub address: [u8; 4],
    pub read_faults: u64,
    pub write_faults: u64,
    /// Whether it wasn't ended yet.
    pub is_open: bool,
    holding: Holding<R>,
}

impl<R: Outside> PortLink<R> {
    /// A connection that the loop gave; a stretch of it, or the whole.
    pub(crate) fn new(
        rt: R,
        edge: Arc<Edge, Global>,
        handed: Handed,
        is_stretch: bool,
    ) -> PortLink<R>
        ensures reads { result.read_faults ≡ 0 }
        ensures writes { result.write_faults ≡ 0 }
        ensures address { result.address ≡ handed.client.value.address }
        ensures is_open { result.is_open ≡ true }
    {
        PortLink {
            address: handed.client.address,
            read_faults: 0,
            write_faults: 0,
            is_open: true,
            holding: Holding::new(rt, edge, handed, is_stretch),
        }
    }
}

impl<R: Outside + Files> Link for PortLink<R> {
    ghost flow = { λ _. None };

    ghost read_faults = { λ l. l.read_faults };

    ghost write_faults = { λ l. l.write_faults };

    ghost peer = { λ l. Accepted l.address };

    ghost is_open = { λ l. l.is_open };

    /// It never waits for the client. A request that isn't whole within 30 s of its first bytes and 30 s more for each 512 KiB of it
    /// that came is a fault where a worker keeps the connection.
    fn read(&mut self, into: &mut [u8]) -> Result<usize, Failed> {
        let answer = self.holding.read(into);
        if answer.is_err() {
            self.read_faults = self.read_faults.saturating_add(1);
        }
        answer
    }

    /// On a stretch what the client doesn't take at once is brought out by the loop, and it is a fault where too much waits so. Else to
    /// take nothing for 30 s is a fault, and so is to take less than 1,000 bytes a second over writes of 30 s.
    fn write(&mut self, piece: &[u8]) -> Result<usize, Failed> {
        let answer = self.holding.write(piece);
        if answer.is_err() || answer == Ok(0) && !piece.is_empty() {
            self.write_faults = self.write_faults.saturating_add(1);
        }
        answer
    }

    /// A read is due at once where a request is whole, and where no further one is to come, and then gives the end: behind 10,000
    /// requests, behind one where the run is to end, where others wait for a worker, and where nothing came for 1 ms on a stretch, or
    /// for 5 s on a connection that a worker keeps.
    fn wait(&mut self) -> Readiness {
        if self.holding.is_ready() {
            Readiness::Ready
        } else {
            Readiness::NothingYet
        }
    }

    /// A client's stream isn't used again.
    fn allow_reuse(&mut self)
        ensures same { self.new ≡ self.old }
    {}

    /// The connection goes back to the loop, which goes on with it or ends it.
    fn shut(&mut self) {
        self.is_open = false;
        self.holding.give_back(self.read_faults > 0);
    }
}
