// Connections over TCP that come in at a port.
ghost use Rattle.std.specs.Prelude.{◌≡◌, ◌||◌, false, true, IfOk, OnErr};
ghost use Rattle.wire.specs.Causes.{HasCause};
ghost use Rattle.world.specs.Awaiting.{IfCame, IfNobodyYet, is_end, given_behind};

use crate::shared::{Edge, Handed, Next};
use crate::{Outside, PortLink};
use std::alloc::Global;
use std::rt::Files;
use std::sync::Arc;
use wire::Failed;
use world::{Awaited, Listener};

/// A listener at a port, over connections that the loop has accepted and gives once a request is there. It ends where the run is to end.
#[derive(Drop)]
pub struct PortListener<R: Outside> {
    /// Where it listens.
    pub port: u16,
    pub given: u64,
    pub faults: u64,
    /// Whether it said its end.
    pub has_ended: bool,
    /// Whether a link ends between two requests, and its connection is given again with the next one.
    pub gives_stretches: bool,
    rt: R,
    edge: Arc<Edge, Global>,
}

impl<R: Outside> PortListener<R> {
    /// A listener that has given no connection yet.
    pub fn new(rt: R, edge: Arc<Edge, Global>, port: u16, gives_stretches: bool) -> PortListener<R>
        ensures given { result.given ≡ 0 }
        ensures faults { result.faults ≡ 0 }
        ensures going { result.has_ended ≡ false }
    {
        PortListener {
            port,
            given: 0,
            faults: 0,
            has_ended: false,
            gives_stretches,
            rt,
            edge,
        }
    }

    /// Closes the port, and waits until all that was sent is brought out, for half a minute at most.
    pub fn close(&self) {
        self.edge.retire(&self.rt);
    }

    // Gives a connection as a link. Where there is no memory for that it is ended, and the count of faults rises.
    fn came(&mut self, handed: Handed) -> Result<Awaited<PortLink<R>>, Failed>
        ensures cause { HasCause self.old.faults self.new.faults result }
        ensures given { IfOk result (λ found. self.new.given ≡ given_behind self.old.given found) }
        ensures gave_none { OnErr result (self.new.given ≡ self.old.given) }
        ensures end { IfOk result (λ found. self.new.has_ended ≡ (is_end found || self.old.has_ended)) }
        ensures going { OnErr result (self.new.has_ended ≡ self.old.has_ended) }
        ensures reads { IfOk result (λ found. IfCame found (λ link _. link.read_faults ≡ 0)) }
        ensures writes { IfOk result (λ found. IfCame found (λ link _. link.write_faults ≡ 0)) }
        ensures peer { IfOk result (λ found. IfCame found (λ link address. link.address ≡ address)) }
        ensures is_open { IfOk result (λ found. IfCame found (λ link _. link.is_open ≡ true)) }
        ensures quiet { IfOk result (λ found. IfNobodyYet found (self.new.faults ≡ self.old.faults)) }
    {
        let Ok(edge) = Arc::try_clone(&self.edge) else {
            self.faults = self.faults.saturating_add(1);
            return Err(Failed);
        };
        let address = handed.client.address;
        self.given = self.given.saturating_add(1);
        Ok(Awaited::Came(
            PortLink::new(self.rt, edge, handed, self.gives_stretches),
            address,
        ))
    }
}

impl<R: Outside + Files + Send> Listener for PortListener<R> {
    type Link = PortLink<R>;

    ghost faults = { λ l. l.faults };

    ghost ended = { λ l. l.has_ended };

    ghost given = { λ l. l.given };

    /// A quarter of a second at most. The end is said where the run is to end and all that came whole was given.
    fn accept(&mut self) -> Result<Awaited<PortLink<R>>, Failed> {
        if self.has_ended {
            return Ok(Awaited::End);
        }
        // The loop closes the port once somebody has seen that the run is to end.
        self.edge.stop.is_set(&self.rt);
        match self.edge.next(&self.rt) {
            Next::Came(handed) => self.came(handed),
            Next::NobodyYet => Ok(Awaited::NobodyYet),
            Next::End => {
                self.has_ended = true;
                Ok(Awaited::End)
            }
            Next::Failed => {
                self.faults = self.faults.saturating_add(1);
                Err(Failed)
            }
        }
    }
}
