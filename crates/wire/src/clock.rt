// The time, and random words.
ghost use Rattle.std.specs.Prelude.{◌≡◌};
ghost use Rattle.std.specs.declared.option.Option.{Option};
ghost use Rattle.wire.specs.Tapes.{Tape, Tells};

/// Where the time and random words come from. Neither fails.
pub trait Clock {
    /// The readings that were told and those that are left, where they are told.
    ghost readings: { Self → Option Tape };

    /// The same of the random words.
    ghost words: { Self → Option Tape };

    /// Milliseconds since 1970. A later reading may be smaller, where a clock was set back.
    fn now(&mut self) -> u64
        ensures reading { Tells (readings self.old) (readings self.new) result }
        ensures words { words self.new ≡ words self.old };

    /// A random word.
    fn word(&mut self) -> u64
        ensures word { Tells (words self.old) (words self.new) result }
        ensures readings { readings self.new ≡ readings self.old };

    /// Lets so many milliseconds pass, about. It tells nothing, and may be cut short.
    fn rest(&mut self, millis: u64)
        ensures readings { readings self.new ≡ readings self.old }
        ensures words { words self.new ≡ words self.old };
}
