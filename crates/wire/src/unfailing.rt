// A source and a sink in memory that never fail.
ghost use Rattle.std.specs.Prelude.{◌≡◌, ◌++◌, [], min, length, take, drop, None, Ok, IfOk};
ghost use Rattle.std.specs.Io.{ReadsAtMost, WritesAtMost};
ghost use Rattle.std.specs.Io.KnownBytes.{ReadConsumes, WriteAppends};
ghost use Rattle.wire.specs.Causes.{HasCause, TakesOrRose};
ghost use Rattle.wire.specs.Memory.{KeptState};

use crate::giving::fill;
use crate::{Failed, Sink, Source};
use std::alloc::{AllocError, Global};
use std::marker::Model;

/// A source over bytes in memory that never fails. Clauses see what it has left.
#[derive(Drop)]
pub struct UnfailingSource {
    bytes: Vec<u8>,
    at: usize,
}

impl Model for UnfailingSource {
    ghost use Rattle.std.specs.Prelude.{List, ℕ, drop, length, ◌≤◌};

    ghost Value = { List ℕ };

    ghost view = { λ s. drop s.at s.bytes.items };

    ghost invariant = { λ s. s.at ≤ length s.bytes.items };
}

impl UnfailingSource {
    pub fn new(bytes: Vec<u8>) -> UnfailingSource
        ensures { result ≡ bytes.items }
    {
        UnfailingSource { bytes, at: 0 }
    }
}

impl Source for UnfailingSource {
    ghost use Rattle.std.specs.Prelude.{Some};

    ghost left = { λ s. Some s };

    ghost faults = { λ _. 0 };

    fn read(&mut self, into: &mut [u8]) -> Result<usize, Failed>
        ensures bound { ReadsAtMost result into.new }
        ensures bytes { ReadConsumes (Some self.old) (Some self.new) result into.new }
        ensures cause { HasCause 0 0 result }
        ensures count { result ≡ Ok (min (length self.old) (length into.old)) }
    {
        let count = fill(&self.bytes[self.at..], into);
        self.at += count;
        Ok(count)
    }
}

/// A sink in memory that never fails. It takes every piece whole and keeps the first `room` bytes of
/// all that it was given. As it may have no room for the others, it tells generic code nothing of what
/// it holds.
#[derive(Drop)]
pub struct UnfailingSink {
    bytes: Vec<u8>,
    room: usize,
}

impl Model for UnfailingSink {
    ghost use Rattle.std.specs.Prelude.{vec_capacity, length, ◌≤◌};
    ghost use Rattle.wire.specs.Memory.{KeptState};

    ghost Value = { KeptState };

    ghost view = { λ s. record { kept = s.bytes.items; room = s.room } };

    ghost invariant = { λ s. (length s.bytes.items ≤ s.room) × (s.room ≤ vec_capacity s.bytes) };
}

impl UnfailingSink {
    /// An empty sink with this room.
    pub fn with_room(alloc: Global, room: usize) -> Result<UnfailingSink, AllocError>
        ensures { IfOk result (λ s. s ≡ record { kept = []; room = room }) }
    {
        Ok(UnfailingSink {
            bytes: Vec::with_capacity(alloc, room)?,
            room,
        })
    }

    /// The first bytes that it was given, as many as it has room for.
    pub fn bytes(&self) -> &[u8]
        ensures { result.now ≡ self.now.kept }
    {
        self.bytes.as_slice()
    }
}

impl Sink for UnfailingSink {
    ghost held = { λ _. None };

    ghost faults = { λ _. 0 };

    fn write(&mut self, piece: &[u8]) -> Result<usize, Failed>
        ensures bound { WritesAtMost result piece.now }
        ensures bytes { WriteAppends None None result piece.now }
        ensures cause { HasCause 0 0 result }
        ensures takes { TakesOrRose 0 0 result piece.now }
        ensures whole { result ≡ Ok (length piece.now) }
        ensures kept { self.new.kept ≡ take self.old.room (self.old.kept ++ piece.now) }
        ensures room { self.new.room ≡ self.old.room }
    {
        let fits = piece.len().min(self.room - self.bytes.len());
        self.bytes.extend_from_slice(&piece[..fits]).unwrap();
        Ok(piece.len())
    }
}
