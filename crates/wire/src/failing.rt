// A source and a sink in memory whose calls fail at chosen numbers.
ghost use Rattle.std.specs.Prelude.{◌≡◌, ◌↔◌, [], min, length, Contains, IsErr, IfOk, OnErr};
ghost use Rattle.std.specs.Io.{ReadsAtMost, WritesAtMost};
ghost use Rattle.std.specs.Io.KnownBytes.{ReadConsumes, WriteAppends};
ghost use Rattle.wire.specs.Causes.{HasCause, TakesOrRose};
ghost use Rattle.wire.specs.Memory.{SourceState, SinkState, after_read, after_failed_read, after_write, after_failed_write};

use crate::giving::give;
use crate::{Calls, Failed, Sink, Source};
use std::alloc::Global;
use std::marker::Model;

/// A source over bytes in memory. Its calls are numbered from 0 on, and those with the given numbers fail.
#[derive(Drop)]
pub struct FailingSource {
    bytes: Vec<u8>,
    at: usize,
    reads: Calls,
}

impl Model for FailingSource {
    ghost use Rattle.std.specs.Prelude.{drop, length, ◌≤◌};
    ghost use Rattle.wire.specs.Memory.{SourceState};

    ghost Value = { SourceState };

    ghost view = { λ s. record { left = drop s.at s.bytes.items; faults = s.reads.faults; calls = s.reads.calls; failing = s.reads.failing } };

    ghost invariant = { λ s. s.at ≤ length s.bytes.items };
}

impl FailingSource {
    pub fn new(bytes: Vec<u8>, failing: Vec<u64>) -> FailingSource
        ensures { result ≡ record { left = bytes.items; faults = 0; calls = 0; failing = failing.items } }
    {
        FailingSource {
            bytes,
            at: 0,
            reads: Calls::new(failing),
        }
    }

    pub fn faults(&self) -> u64
        ensures { result ≡ self.now.faults }
    {
        self.reads.faults()
    }
}

impl Source for FailingSource {
    ghost use Rattle.std.specs.Prelude.{Some};

    ghost left = { λ s. Some s.left };

    ghost faults = { λ s. s.faults };

    fn read(&mut self, into: &mut [u8]) -> Result<usize, Failed>
        ensures bound { ReadsAtMost result into.new }
        ensures bytes { ReadConsumes (Some self.old.left) (Some self.new.left) result into.new }
        ensures cause { HasCause self.old.faults self.new.faults result }
        ensures fails { IsErr result ↔ Contains self.old.failing self.old.calls }
        ensures gives { IfOk result (λ count. (count ≡ min (length self.old.left) (length into.old)) × (self.new ≡ after_read self.old count)) }
        ensures err { OnErr result (self.new ≡ after_failed_read self.old) }
    {
        if self.reads.call() {
            self.reads.fault();
            return Err(Failed);
        }
        Ok(give(self.bytes.as_slice(), &mut self.at, into.len(), into))
    }
}

/// A sink in memory. Its calls are numbered from 0 on; those with the given numbers fail, as does one
/// for which memory is wanting. It takes at most `most` bytes in one call: with 0 it takes nothing.
#[derive(Drop)]
pub struct FailingSink {
    bytes: Vec<u8>,
    writes: Calls,
    most: usize,
}

impl Model for FailingSink {
    ghost use Rattle.wire.specs.Memory.{SinkState};

    ghost Value = { SinkState };

    ghost view = { λ s. record { held = s.bytes.items; faults = s.writes.faults; calls = s.writes.calls; failing = s.writes.failing; most = s.most } };
}

impl FailingSink {
    pub fn new(alloc: Global, failing: Vec<u64>, most: usize) -> FailingSink
        ensures { result ≡ record { held = []; faults = 0; calls = 0; failing = failing.items; most = most } }
    {
        FailingSink {
            bytes: Vec::new(alloc),
            writes: Calls::new(failing),
            most,
        }
    }

    /// The bytes that it took.
    pub fn bytes(&self) -> &[u8]
        ensures { result.now ≡ self.now.held }
    {
        self.bytes.as_slice()
    }

    pub fn faults(&self) -> u64
        ensures { result ≡ self.now.faults }
    {
        self.writes.faults()
    }
}

impl Sink for FailingSink {
    ghost use Rattle.std.specs.Prelude.{Some};

    ghost held = { λ s. Some s.held };

    ghost faults = { λ s. s.faults };

    fn write(&mut self, piece: &[u8]) -> Result<usize, Failed>
        ensures bound { WritesAtMost result piece.now }
        ensures bytes { WriteAppends (Some self.old.held) (Some self.new.held) result piece.now }
        ensures cause { HasCause self.old.faults self.new.faults result }
        ensures takes { TakesOrRose self.old.faults self.new.faults result piece.now }
        ensures fails { Contains self.old.failing self.old.calls → IsErr result }
        ensures count { IfOk result (λ count. count ≡ min (length piece.now) self.old.most) }
        ensures took { IfOk result (λ count. self.new ≡ after_write self.old piece.now count) }
        ensures err { OnErr result (self.new ≡ after_failed_write self.old) }
    {
        let fails = self.writes.call();
        let count = piece.len().min(self.most);
        if fails || self.bytes.extend_from_slice(&piece[..count]).is_err() {
            self.writes.fault();
            return Err(Failed);
        }
        if count == 0 && !piece.is_empty() {
            self.writes.fault();
        }
        Ok(count)
    }
}
