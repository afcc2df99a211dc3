// A listener in memory whose calls fail at chosen numbers.
ghost use Rattle.std.specs.Prelude.{◌≡◌, ◌↔◌, ◌||◌, true, false, drop, Some, Contains, IsErr, IfOk, OnErr};
ghost use Rattle.wire.specs.Calls.{failed, uncalled};
ghost use Rattle.wire.specs.Causes.{HasCause};
ghost use Rattle.wire.specs.Flow.{IsFresh};
ghost use Rattle.wire.specs.DialerMemory.{planned_link};
ghost use Rattle.wire.specs.declared.peer.Peer.{Peer as End};
ghost use Rattle.world.specs.Awaiting.{IfCame, IfNobodyYet, is_end, given_behind};
ghost use Rattle.world.specs.ListenerMemory.{answer_behind, first_arrival, waited};

use crate::{Awaited, Listener};
use std::alloc::{AllocError, Global};
use std::collections::VecDeque;
use std::marker::Model;
use wire::{Calls, Direction, Failed, FailingLink, Kept, Peer, Plan, place};

/// A connection in memory that was accepted. It has its place among those that are handed back.
pub type AcceptedLink = FailingLink<Box<Kept<FailingLink>>>;

/// A connection that is to come, and the address that it comes from. It takes its memory here.
#[derive(Drop)]
pub struct Coming {
    plan: Plan,
    address: [u8; 4],
    place: Box<Kept<FailingLink>>,
}

impl Model for Coming {
    ghost use Rattle.world.specs.ListenerMemory.{Arrival};

    ghost Value = { Arrival };

    ghost view = { λ c. record { plan = c.plan; address = c.address } };
}

impl Coming {
    pub fn new(alloc: Global, plan: Plan, address: [u8; 4]) -> Result<Coming, AllocError>
        ensures { IfOk result (λ coming. coming ≡ record { plan = plan; address = address }) }
    {
        Ok(Coming {
            plan,
            address,
            place: place(alloc)?,
        })
    }

    // The connection, as it is accepted.
    fn accepted(self, alloc: Global) -> (AcceptedLink, [u8; 4])
        ensures { result ≡ (planned_link self.plan (End.Accepted self.address), self.address) }
    {
        let Coming {
            plan,
            address,
            place,
        } = self;
        let reads = Direction::new(plan.failing_reads, plan.most);
        let writes = Direction::new(plan.failing_writes, plan.most);
        let link = FailingLink::new(alloc, plan.input, reads, writes, Peer::Accepted(address));
        (link.at_place(place), address)
    }
}

/// A listener over connections in memory. Its calls are numbered from 0 on; those with the given numbers fail. So many others
/// find nobody yet as it was told, and the rest give the connections in order, and then the end.
#[derive(Drop)]
pub struct FailingListener {
    alloc: Global,
    coming: VecDeque<Coming>,
    accepts: Calls,
    ended: bool,
    given: u64,
    quiet: u64,
}

impl Model for FailingListener {
    ghost use Rattle.world.specs.ListenerMemory.{ListenerState};

    ghost Value = { ListenerState };

    ghost view = { λ l. record { coming = l.coming.items; accepts = l.accepts; ended = l.ended; given = l.given; quiet = l.quiet } };
}

impl FailingListener {
    /// A listener of which so many waits find nobody yet.
    pub fn new(
        alloc: Global,
        coming: VecDeque<Coming>,
        failing: Vec<u64>,
        quiet: u64,
    ) -> FailingListener
        ensures { result ≡ record { coming = coming.items; accepts = uncalled failing.items; ended = false; given = 0; quiet = quiet } }
    {
        FailingListener {
            alloc,
            coming,
            accepts: Calls::new(failing),
            ended: false,
            given: 0,
            quiet,
        }
    }

    pub fn faults(&self) -> u64
        ensures { result ≡ self.now.accepts.faults }
    {
        self.accepts.faults()
    }

    /// Whether it said that no connection comes any more.
    pub fn ended(&self) -> bool
        ensures { result ≡ self.now.ended }
    {
        self.ended
    }

    /// How many connections it gave.
    pub fn given(&self) -> u64
        ensures { result ≡ self.now.given }
    {
        self.given
    }

    // The next connection that is to come.
    fn next(&mut self) -> Awaited<AcceptedLink>
        ensures gives { result ≡ first_arrival self.old.coming }
        ensures next { self.new ≡ record self.old { coming = drop 1 self.old.coming; ended = is_end result || self.old.ended; given = given_behind self.old.given result } }
    {
        match self.coming.pop_front() {
            Some(coming) => {
                self.given = self.given.saturating_add(1);
                let (link, address) = coming.accepted(self.alloc);
                Awaited::Came(link, address)
            }
            None => {
                self.ended = true;
                Awaited::End
            }
        }
    }
}

impl Listener for FailingListener {
    type Link = AcceptedLink;

    ghost faults = { λ l. l.accepts.faults };

    ghost ended = { λ l. l.ended };

    ghost given = { λ l. l.given };

    fn accept(&mut self) -> Result<Awaited<AcceptedLink>, Failed>
        ensures fresh { IfOk result (λ found. IfCame found (λ link _. IsFresh (Some link.flow))) }
        ensures reads { IfOk result (λ found. IfCame found (λ link _. link.reads.faults ≡ 0)) }
        ensures writes { IfOk result (λ found. IfCame found (λ link _. link.writes.faults ≡ 0)) }
        ensures peer { IfOk result (λ found. IfCame found (λ link address. link.peer ≡ End.Accepted address)) }
        ensures is_open { IfOk result (λ found. IfCame found (λ link _. link.is_open ≡ true)) }
        ensures quiet { IfOk result (λ found. IfNobodyYet found (self.new.accepts.faults ≡ self.old.accepts.faults)) }
        ensures given { IfOk result (λ found. self.new.given ≡ given_behind self.old.given found) }
        ensures gave_none { OnErr result (self.new.given ≡ self.old.given) }
        ensures end { IfOk result (λ found. self.new.ended ≡ (is_end found || self.old.ended)) }
        ensures going { OnErr result (self.new.ended ≡ self.old.ended) }
        ensures cause { HasCause self.old.accepts.faults self.new.accepts.faults result }
        ensures fails { IsErr result ↔ Contains self.old.accepts.failing self.old.accepts.calls }
        ensures gives { IfOk result (λ found. found ≡ answer_behind self.old.quiet self.old.coming) }
        ensures next { IfOk result (λ found. self.new ≡ waited self.old.quiet self.old) }
        ensures err { OnErr result (self.new ≡ record self.old { accepts = failed self.old.accepts }) }
    {
        if self.accepts.call() {
            self.accepts.fault();
            return Err(Failed);
        }
        if self.quiet > 0 {
            self.quiet -= 1;
            return Ok(Awaited::NobodyYet);
        }
        Ok(self.next())
    }
}
