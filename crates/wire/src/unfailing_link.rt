// A connection in memory that never fails.
ghost use Rattle.std.specs.Prelude.{◌≡◌, ◌++◌, [], true, false, min, length, take, drop, None, Ok, IfOk};
ghost use Rattle.std.specs.Io.{ReadsAtMost, WritesAtMost};
ghost use Rattle.wire.specs.Causes.{HasCause, TakesOrRose};
ghost use Rattle.wire.specs.Flow.{Reads, Writes};
ghost use Rattle.wire.specs.declared.link.Readiness.TheVariants.{Ready};

use crate::{Failed, Link, Peer, Readiness, Sink, Source, UnfailingSink, UnfailingSource};
use std::alloc::{AllocError, Global};
use std::marker::Model;

/// A connection over bytes in memory that never fails. It takes every piece whole and keeps the first `room` bytes of all that
/// it was given. As it may have no room for the others, it tells generic code nothing of what went over it.
#[derive(Drop)]
pub struct UnfailingLink {
    source: UnfailingSource,
    sink: UnfailingSink,
    peer: Peer,
    is_open: bool,
}

impl Model for UnfailingLink {
    ghost use Rattle.wire.specs.UnfailingMemory.{UnfailingState};

    ghost Value = { UnfailingState };

    ghost view = { λ l. record { left = l.source; kept = l.sink.kept; room = l.sink.room; peer = l.peer; is_open = l.is_open } };
}

impl UnfailingLink {
    /// A connection on which these bytes come, from that peer, with room for so many bytes.
    pub fn with_room(
        alloc: Global,
        input: Vec<u8>,
        room: usize,
        peer: Peer,
    ) -> Result<UnfailingLink, AllocError>
        ensures { IfOk result (λ link. link ≡ record { left = input.items; kept = []; room = room; peer = peer; is_open = true }) }
    {
        Ok(UnfailingLink {
            source: UnfailingSource::new(input),
            sink: UnfailingSink::with_room(alloc, room)?,
            peer,
            is_open: true,
        })
    }

    /// The first bytes that it took, as many as it has room for.
    pub fn bytes(&self) -> &[u8]
        ensures { result.now ≡ self.now.kept }
    {
        self.sink.bytes()
    }
}

impl Link for UnfailingLink {
    ghost flow = { λ _. None };

    ghost read_faults = { λ _. 0 };

    ghost write_faults = { λ _. 0 };

    ghost peer = { λ l. l.peer };

    ghost is_open = { λ l. l.is_open };

    fn read(&mut self, into: &mut [u8]) -> Result<usize, Failed>
        ensures bound { ReadsAtMost result into.new }
        ensures bytes { Reads None None result into.new }
        ensures cause { HasCause 0 0 result }
        ensures peer { self.new.peer ≡ self.old.peer }
        ensures is_open { self.new.is_open ≡ self.old.is_open }
        ensures count { result ≡ Ok (min (length self.old.left) (length into.old)) }
        ensures given { IfOk result (λ count. (take count into.new ≡ take count self.old.left) × (self.new ≡ record self.old { left = drop count self.old.left })) }
    {
        self.source.read(into)
    }

    fn write(&mut self, piece: &[u8]) -> Result<usize, Failed>
        ensures bound { WritesAtMost result piece.now }
        ensures bytes { Writes None None result piece.now }
        ensures cause { HasCause 0 0 result }
        ensures takes { TakesOrRose 0 0 result piece.now }
        ensures peer { self.new.peer ≡ self.old.peer }
        ensures is_open { self.new.is_open ≡ self.old.is_open }
        ensures whole { result ≡ Ok (length piece.now) }
        ensures kept { self.new ≡ record self.old { kept = take self.old.room (self.old.kept ++ piece.now) } }
    {
        self.sink.write(piece)
    }

    fn wait(&mut self) -> Readiness
        ensures peer { self.new.peer ≡ self.old.peer }
        ensures is_open { self.new.is_open ≡ self.old.is_open }
        ensures same { self.new ≡ self.old }
        ensures ready { result ≡ Ready }
    {
        Readiness::Ready
    }

    fn allow_reuse(&mut self)
        ensures peer { self.new.peer ≡ self.old.peer }
        ensures is_open { self.new.is_open ≡ self.old.is_open }
        ensures same { self.new ≡ self.old }
    {}

    fn shut(&mut self)
        ensures peer { self.new.peer ≡ self.old.peer }
        ensures closed { self.new.is_open ≡ false }
        ensures others { self.new ≡ record self.old { is_open = false } }
    {
        self.is_open = false;
    }
}
