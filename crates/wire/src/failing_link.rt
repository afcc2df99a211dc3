// A connection in memory whose calls fail at chosen numbers.
ghost use Rattle.std.specs.Prelude.{◌≡◌, ◌↔◌, ◌==◌, ◌-◌, [], Some, true, false, min, max, length, Contains, IsErr, IfOk, OnErr, if◌then◌else◌};
ghost use Rattle.std.specs.Io.{ReadsAtMost, WritesAtMost};
ghost use Rattle.wire.specs.Causes.{HasCause, TakesOrRose};
ghost use Rattle.wire.specs.Flow.{Reads, Writes};
ghost use Rattle.wire.specs.LinkMemory.{called, failed, gave, taken, wrote};
ghost use Rattle.wire.specs.declared.link.Readiness.TheVariants as answer;

use crate::giving::give;
use crate::{Calls, Failed, Link, Peer, Readiness};
use std::alloc::Global;
use std::marker::Model;

/// How the calls of one direction go: they are numbered from 0 on, those with the given numbers fail, and one moves at most
/// `most` bytes. A read moves at least one where there is one, since to give nothing is the end; a write with 0 takes nothing.
#[derive(Drop)]
pub struct Direction {
    calls: Calls,
    most: usize,
}

impl Model for Direction {
    ghost use Rattle.wire.specs.LinkMemory.{Direction as Way};

    ghost Value = { Way };

    ghost view = { λ d. record { faults = d.calls.faults; calls = d.calls.calls; failing = d.calls.failing; most = d.most } };
}

impl Direction {
    pub fn new(failing: Vec<u64>, most: usize) -> Direction
        ensures { result ≡ record { faults = 0; calls = 0; failing = failing.items; most = most } }
    {
        Direction {
            calls: Calls::new(failing),
            most,
        }
    }
}

/// A connection over bytes in memory. A write for which memory is wanting fails too. It may have a place, made before, to which
/// it goes when it is handed back.
#[derive(Drop)]
pub struct FailingLink<P: Drop = ()> {
    input: Vec<u8>,
    at: usize,
    output: Vec<u8>,
    reads: Direction,
    writes: Direction,
    peer: Peer,
    is_open: bool,
    quiet: u64,
    place: P,
}

impl<P: Drop> Model for FailingLink<P> {
    ghost use Rattle.std.specs.Prelude.{take, drop, length, ◌≤◌};
    ghost use Rattle.wire.specs.LinkMemory.{LinkState};

    ghost Value = { LinkState };

    ghost view = { λ l. record {
      flow = record { given = take l.at l.input.items; left = drop l.at l.input.items; took = l.output.items };
      reads = l.reads;
      writes = l.writes;
      peer = l.peer;
      is_open = l.is_open;
      quiet = l.quiet;
    } };

    ghost invariant = { λ l. l.at ≤ length l.input.items };
}

impl FailingLink {
    /// A connection on which these bytes come, from that peer.
    pub fn new(
        alloc: Global,
        input: Vec<u8>,
        reads: Direction,
        writes: Direction,
        peer: Peer,
    ) -> FailingLink
        ensures { result ≡ record { flow = record { given = []; left = input.items; took = [] }; reads = reads; writes = writes; peer = peer; is_open = true; quiet = 0 } }
    {
        FailingLink {
            input,
            at: 0,
            output: Vec::new(alloc),
            reads,
            writes,
            peer,
            is_open: true,
            quiet: 0,
            place: (),
        }
    }

    /// The connection, of which so many waits find nothing yet.
    pub fn quiet_for(self, waits: u64) -> FailingLink
        ensures { result ≡ record self { quiet = waits } }
    {
        FailingLink {
            quiet: waits,
            ..self
        }
    }

    /// The connection with a place.
    pub fn at_place<P: Drop>(self, place: P) -> FailingLink<P>
        ensures { result ≡ self }
    {
        FailingLink {
            input: self.input,
            at: self.at,
            output: self.output,
            reads: self.reads,
            writes: self.writes,
            peer: self.peer,
            is_open: self.is_open,
            quiet: self.quiet,
            place,
        }
    }
}

impl<P: Drop> FailingLink<P> {
    /// The connection without its place, and the place.
    pub fn apart(self) -> (FailingLink, P)
        ensures { result.0 ≡ self }
    {
        let link = FailingLink {
            input: self.input,
            at: self.at,
            output: self.output,
            reads: self.reads,
            writes: self.writes,
            peer: self.peer,
            is_open: self.is_open,
            quiet: self.quiet,
            place: (),
        };
        (link, self.place)
    }

    /// The bytes that it took.
    pub fn took(&self) -> &[u8]
        ensures { result.now ≡ self.now.flow.took }
    {
        self.output.as_slice()
    }

    pub fn read_faults(&self) -> u64
        ensures { result ≡ self.now.reads.faults }
    {
        self.reads.calls.faults()
    }

    pub fn write_faults(&self) -> u64
        ensures { result ≡ self.now.writes.faults }
    {
        self.writes.calls.faults()
    }

    /// Whether it wasn't ended yet.
    pub fn is_open(&self) -> bool
        ensures { result ≡ self.now.is_open }
    {
        self.is_open
    }
}

impl<P: Drop> Link for FailingLink<P> {
    ghost use Rattle.std.specs.Prelude.{Some};

    ghost flow = { λ l. Some l.flow };

    ghost read_faults = { λ l. l.reads.faults };

    ghost write_faults = { λ l. l.writes.faults };

    ghost peer = { λ l. l.peer };

    ghost is_open = { λ l. l.is_open };

    fn read(&mut self, into: &mut [u8]) -> Result<usize, Failed>
        ensures bound { ReadsAtMost result into.new }
        ensures bytes { Reads (Some self.old.flow) (Some self.new.flow) result into.new }
        ensures cause { HasCause self.old.reads.faults self.new.reads.faults result }
        ensures other { self.new.writes.faults ≡ self.old.writes.faults }
        ensures peer { self.new.peer ≡ self.old.peer }
        ensures is_open { self.new.is_open ≡ self.old.is_open }
        ensures fails { IsErr result ↔ Contains self.old.reads.failing self.old.reads.calls }
        ensures count { IfOk result (λ count. count ≡ min (min (length self.old.flow.left) (length into.old)) (max 1 self.old.reads.most)) }
        ensures gives { IfOk result (λ count. self.new ≡ record self.old { flow = gave self.old.flow count; reads = called self.old.reads }) }
        ensures err { OnErr result (self.new ≡ record self.old { reads = failed self.old.reads }) }
    {
        if self.reads.calls.call() {
            self.reads.calls.fault();
            return Err(Failed);
        }
        let most = self.reads.most.max(1);
        Ok(give(self.input.as_slice(), &mut self.at, most, into))
    }

    fn write(&mut self, piece: &[u8]) -> Result<usize, Failed>
        ensures bound { WritesAtMost result piece.now }
        ensures bytes { Writes (Some self.old.flow) (Some self.new.flow) result piece.now }
        ensures cause { HasCause self.old.writes.faults self.new.writes.faults result }
        ensures takes { TakesOrRose self.old.writes.faults self.new.writes.faults result piece.now }
        ensures other { self.new.reads.faults ≡ self.old.reads.faults }
        ensures peer { self.new.peer ≡ self.old.peer }
        ensures is_open { self.new.is_open ≡ self.old.is_open }
        ensures fails { Contains self.old.writes.failing self.old.writes.calls → IsErr result }
        ensures count { IfOk result (λ count. count ≡ min (length piece.now) self.old.writes.most) }
        ensures took { IfOk result (λ count. self.new ≡ record self.old { flow = taken self.old.flow piece.now count; writes = wrote self.old.writes piece.now count }) }
        ensures err { OnErr result (self.new ≡ record self.old { writes = failed self.old.writes }) }
    {
        let fails = self.writes.calls.call();
        let count = piece.len().min(self.writes.most);
        if fails || self.output.extend_from_slice(&piece[..count]).is_err() {
            self.writes.calls.fault();
            return Err(Failed);
        }
        if count == 0 && !piece.is_empty() {
            self.writes.calls.fault();
        }
        Ok(count)
    }

    fn wait(&mut self) -> Readiness
        ensures bytes { Some self.new.flow ≡ Some self.old.flow }
        ensures reads { self.new.reads.faults ≡ self.old.reads.faults }
        ensures writes { self.new.writes.faults ≡ self.old.writes.faults }
        ensures peer { self.new.peer ≡ self.old.peer }
        ensures is_open { self.new.is_open ≡ self.old.is_open }
        ensures answer { result ≡ if self.old.quiet == 0 then answer.Ready else answer.NothingYet }
        ensures others { self.new ≡ record self.old { quiet = self.old.quiet - 1 } }
    {
        if self.quiet == 0 {
            return Readiness::Ready;
        }
        self.quiet -= 1;
        Readiness::NothingYet
    }

    fn allow_reuse(&mut self)
        ensures bytes { Some self.new.flow ≡ Some self.old.flow }
        ensures reads { self.new.reads.faults ≡ self.old.reads.faults }
        ensures writes { self.new.writes.faults ≡ self.old.writes.faults }
        ensures peer { self.new.peer ≡ self.old.peer }
        ensures is_open { self.new.is_open ≡ self.old.is_open }
        ensures same { self.new ≡ self.old }
    {}

    fn shut(&mut self)
        ensures bytes { Some self.new.flow ≡ Some self.old.flow }
        ensures reads { self.new.reads.faults ≡ self.old.reads.faults }
        ensures writes { self.new.writes.faults ≡ self.old.writes.faults }
        ensures peer { self.new.peer ≡ self.old.peer }
        ensures closed { self.new.is_open ≡ false }
        ensures others { self.new ≡ record self.old { is_open = false } }
    {
        self.is_open = false;
    }
}
