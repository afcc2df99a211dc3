// Where bytes come from and where they go.
ghost use Rattle.std.specs.Prelude.{List, ℕ};
ghost use Rattle.std.specs.declared.option.Option.{Option};
ghost use Rattle.std.specs.Io.{ReadsAtMost, WritesAtMost};
ghost use Rattle.std.specs.Io.KnownBytes.{ReadConsumes, WriteAppends};
ghost use Rattle.wire.specs.Causes.{HasCause, TakesOrRose};

use std::error::Error;
use std::fmt;

/// A call of the outside failed, and its object's count of faults rose.
#[derive(Clone, Copy, Debug, PartialEq, Eq)]
pub struct Failed;

impl fmt::Display for Failed {
    fn fmt<W: fmt::Write>(&self, f: &mut fmt::Formatter<W>) -> fmt::Result {
        f.write_str("a call of the outside failed")
    }
}

impl Error for Failed {}

/// Where bytes come from.
pub trait Source {
    /// The bytes that reads will give, where they are told.
    ghost left: { Self → Option (List ℕ) };

    /// How often a call failed; the greatest count stands for all beyond.
    ghost faults: { Self → ℕ };

    /// Puts bytes into the room, from its start on, and gives their number. 0 for a room that isn't
    /// empty is the end.
    fn read(&mut self, into: &mut [u8]) -> Result<usize, Failed>
        ensures bound { ReadsAtMost result into.new }
        ensures bytes { ReadConsumes (left self.old) (left self.new) result into.new }
        ensures cause { HasCause (faults self.old) (faults self.new) result };
}

/// Where bytes go.
pub trait Sink {
    /// The bytes that were taken, where they are told.
    ghost held: { Self → Option (List ℕ) };

    /// How often a call failed or took nothing of a piece; the greatest count stands for all beyond.
    ghost faults: { Self → ℕ };

    /// Takes bytes from the start of the piece, and gives their number. To take nothing of a piece that
    /// isn't empty is a fault.
    fn write(&mut self, piece: &[u8]) -> Result<usize, Failed>
        ensures bound { WritesAtMost result piece.now }
        ensures bytes { WriteAppends (held self.old) (held self.new) result piece.now }
        ensures cause { HasCause (faults self.old) (faults self.new) result }
        ensures takes { TakesOrRose (faults self.old) (faults self.new) result piece.now };
}
