// Connections, and where they are dialed.
ghost use Rattle.std.specs.Prelude.{◌≡◌, ℕ, Bool, true, false, List, [], ◌∷◌, IfOk, IsErrOf, OnOk};
ghost use Rattle.std.specs.declared.option.Option.{Option};
ghost use Rattle.std.specs.declared.option.Option.TheVariants.{Some, None};
ghost use Rattle.std.specs.Io.{ReadsAtMost, WritesAtMost};
ghost use Rattle.wire.specs.Causes.{HasCause, TakesOrRose, Rose};
ghost use Rattle.wire.specs.Flow.{Flow, IsFresh, Reads, Writes};
ghost use Rattle.wire.specs.Talks.{Adds, counted_link};
ghost use Rattle.wire.specs.declared.peer.Peer.{Peer as End};
ghost use Rattle.wire.specs.declared.peer.Talk.{Talk as Dialing};

use crate::DialLimits;
use crate::traits::Failed;
use std::alloc::AllocError;
use std::error::Error;
use std::fmt::{self, Display, Formatter, Write};
use units::Text;

/// What came of a bounded wait for what comes next on a connection.
#[derive(Clone, Copy, Debug, PartialEq, Eq)]
pub enum Readiness {
    /// A read answers at once: with bytes, with the end, or with a fault.
    Ready,
    /// Nothing came in the time that a call waits.
    NothingYet,
}

/// A connection, both ways.
pub trait Link: Drop {
    /// What went over it and what reads will give, where it is told.
    ghost flow: { Self → Option Flow };

    /// How often a read failed; the greatest count stands for all beyond.
    ghost read_faults: { Self → ℕ };

    /// How often a write failed or took nothing of a piece; the greatest count stands for all beyond.
    ghost write_faults: { Self → ℕ };

    /// Where the other end is.
    ghost peer: { Self → End };

    /// It wasn't ended yet. A connection that is handed back isn't open.
    ghost is_open: { Self → Bool };

    /// Puts bytes into the room, from its start on, and gives their number. 0 for a room that isn't empty is the end.
    fn read(&mut self, into: &mut [u8]) -> Result<usize, Failed>
        ensures bound { ReadsAtMost result into.new }
        ensures bytes { Reads (flow self.old) (flow self.new) result into.new }
        ensures cause { HasCause (read_faults self.old) (read_faults self.new) result }
        ensures other { write_faults self.new ≡ write_faults self.old }
        ensures peer { peer self.new ≡ peer self.old }
        ensures is_open { is_open self.new ≡ is_open self.old };

    /// Takes bytes from the start of the piece, and gives their number. To take nothing of a piece that isn't empty is a
    /// fault.
    fn write(&mut self, piece: &[u8]) -> Result<usize, Failed>
        ensures bound { WritesAtMost result piece.now }
        ensures bytes { Writes (flow self.old) (flow self.new) result piece.now }
        ensures cause { HasCause (write_faults self.old) (write_faults self.new) result }
        ensures takes { TakesOrRose (write_faults self.old) (write_faults self.new) result piece.now }
        ensures other { read_faults self.new ≡ read_faults self.old }
        ensures peer { peer self.new ≡ peer self.old }
        ensures is_open { is_open self.new ≡ is_open self.old };

    /// Waits until a read would answer at once, for a bounded time that the connection chooses. It is asked between two
    /// messages. It moves nothing and raises no count; how often it is asked has no meaning.
    fn wait(&mut self) -> Readiness
        ensures bytes { flow self.new ≡ flow self.old }
        ensures reads { read_faults self.new ≡ read_faults self.old }
        ensures writes { write_faults self.new ≡ write_faults self.old }
        ensures peer { peer self.new ≡ peer self.old }
        ensures is_open { is_open self.new ≡ is_open self.old };

    /// Says that an exchange ended by its framing, with nothing behind it: once the connection is ended here, its stream may be
    /// used for another. It has no meaning for this connection.
    fn allow_reuse(&mut self)
        ensures bytes { flow self.new ≡ flow self.old }
        ensures reads { read_faults self.new ≡ read_faults self.old }
        ensures writes { write_faults self.new ≡ write_faults self.old }
        ensures peer { peer self.new ≡ peer self.old }
        ensures is_open { is_open self.new ≡ is_open self.old };

    /// Ends the connection. What went over it stays told as it was.
    fn shut(&mut self)
        ensures bytes { flow self.new ≡ flow self.old }
        ensures reads { read_faults self.new ≡ read_faults self.old }
        ensures writes { write_faults self.new ≡ write_faults self.old }
        ensures peer { peer self.new ≡ peer self.old }
        ensures closed { is_open self.new ≡ false };
}

/// Why a connection wasn't dialed.
#[derive(Clone, Copy, Debug, PartialEq, Eq)]
pub enum DialError {
    /// There is no answer at that host and port, and the dialer's count of failed dials rose.
    Failed,
    NoMemory,
}

impl From<AllocError> for DialError {
    ghost use Rattle.wire.specs.declared.link.DialError.TheVariants.{NoMemory};

    ghost from_gives = { λ _ error. error ≡ NoMemory };

    fn from(_error: AllocError) -> DialError {
        DialError::NoMemory
    }
}

impl Display for DialError {
    fn fmt<W: Write>(&self, f: &mut Formatter<W>) -> fmt::Result {
        f.write_str(match self {
            DialError::Failed => "no connection could be made",
            DialError::NoMemory => "out of memory",
        })
    }
}

impl Error for DialError {}

/// Where connections are dialed, and handed back.
pub trait Dialer {
    type Link: Link + Drop;

    /// The dials that failed or whose links were handed back, in that order, where they are told.
    ghost talks: { Self → Option (List (Dialing Self.Link)) };

    /// How often a dial failed; the greatest count stands for all beyond.
    ghost dial_faults: { Self → ℕ };

    /// How many links with a failed read were handed back, up to the greatest count.
    ghost read_faults: { Self → ℕ };

    /// How many links with a failed write were handed back, up to the greatest count.
    ghost write_faults: { Self → ℕ };

    /// From now on a dial, and reads on the connection that it gives, take at most so long. It tells nothing.
    fn within(&mut self, limits: DialLimits)
        ensures talks { talks self.new ≡ talks self.old }
        ensures dials { dial_faults self.new ≡ dial_faults self.old }
        ensures reads { read_faults self.new ≡ read_faults self.old }
        ensures writes { write_faults self.new ≡ write_faults self.old };

    /// A connection to that host and port. A dial that fails is a talk without a link.
    fn dial(&mut self, host: &Text, port: &Text) -> Result<Self::Link, DialError>
        ensures fresh { IfOk result (λ link. IsFresh (Self.Link.flow link)) }
        ensures reads { IfOk result (λ link. Self.Link.read_faults link ≡ 0) }
        ensures writes { IfOk result (λ link. Self.Link.write_faults link ≡ 0) }
        ensures peer { IfOk result (λ link. Self.Link.peer link ≡ End.Dialed host.now port.now) }
        ensures is_open { IfOk result (λ link. Self.Link.is_open link ≡ true) }
        ensures dialed { OnOk result ((talks self.new ≡ talks self.old) × (dial_faults self.new ≡ dial_faults self.old)) }
        ensures failed { IsErrOf result DialError.Failed → Adds (talks self.old) (talks self.new) (record { peer = End.Dialed host.now port.now; link = None } ∷ [])
            × Rose (dial_faults self.old) (dial_faults self.new) }
        ensures no_memory { IsErrOf result DialError.NoMemory → (talks self.new ≡ talks self.old) × (dial_faults self.new ≡ dial_faults self.old) }
        ensures read_count { read_faults self.new ≡ read_faults self.old }
        ensures write_count { write_faults self.new ≡ write_faults self.old };

    /// Takes a connection back that was ended, whose talk is over. It takes no memory.
    fn hang_up(&mut self, link: Self::Link)
        requires closed { Self.Link.is_open link ≡ false }
        ensures talk { Adds (talks self.old) (talks self.new) (record { peer = Self.Link.peer link; link = Some link } ∷ []) }
        ensures dials { dial_faults self.new ≡ dial_faults self.old }
        ensures reads { read_faults self.new ≡ counted_link (read_faults self.old) (Self.Link.read_faults link) }
        ensures writes { write_faults self.new ≡ counted_link (write_faults self.old) (Self.Link.write_faults link) };
}
