// A clock in memory, which tells what it was given.
ghost use Rattle.std.specs.Prelude.{◌≡◌, ◌<◌, [], vec_len, Some};
ghost use Rattle.wire.specs.Tapes.{Tape, Tells};

use crate::Clock;
use std::marker::Model;

// Values that are told one by one. Behind the last one it is told again.
#[derive(Drop)]
struct Script {
    values: Vec<u64>,
    at: usize,
}

impl Model for Script {
    ghost use Rattle.std.specs.Prelude.{take, drop, length, ◌<◌, ◌≤◌};
    ghost use Rattle.wire.specs.Tapes.{Tape};

    ghost Value = { Tape };

    ghost view = { λ s. record { told = take s.at s.values.items; left = drop s.at s.values.items } };

    ghost invariant = { λ s. (0 < length s.values.items) × (s.at ≤ length s.values.items) };
}

impl Script {
    fn new(values: Vec<u64>) -> Script
        requires { 0 < vec_len values }
        ensures { result ≡ record { told = []; left = values.items } }
    {
        Script { values, at: 0 }
    }

    fn tell(&mut self) -> u64
        ensures { Tells (Some self.old) (Some self.new) result }
    {
        match self.values.get(self.at) {
            Some(value) => {
                let value = *value;
                self.at += 1;
                value
            }
            None => self.values[self.at - 1],
        }
    }
}

/// A clock in memory. It tells these readings and these random words one by one, and then the last of each again and again.
#[derive(Drop)]
pub struct ScriptedClock {
    readings: Script,
    words: Script,
}

impl Model for ScriptedClock {
    ghost use Rattle.wire.specs.Tapes.{ClockState};

    ghost Value = { ClockState };

    ghost view = { λ c. record { readings = c.readings; words = c.words } };
}

impl ScriptedClock {
    /// At least one reading and one word.
    pub fn new(readings: Vec<u64>, words: Vec<u64>) -> ScriptedClock
        requires readings { 0 < vec_len readings }
        requires words { 0 < vec_len words }
        ensures readings { result.readings ≡ record { told = []; left = readings.items } }
        ensures words { result.words ≡ record { told = []; left = words.items } }
    {
        ScriptedClock {
            readings: Script::new(readings),
            words: Script::new(words),
        }
    }
}

impl Clock for ScriptedClock {
    ghost use Rattle.std.specs.Prelude.{Some};

    ghost readings = { λ c. Some c.readings };

    ghost words = { λ c. Some c.words };

    fn now(&mut self) -> u64 {
        self.readings.tell()
    }

    fn word(&mut self) -> u64 {
        self.words.tell()
    }

    /// No time passes.
    fn rest(&mut self, _millis: u64)
        ensures readings { Some self.new.readings ≡ Some self.old.readings }
        ensures words { Some self.new.words ≡ Some self.old.words }
        ensures same { self.new ≡ self.old }
    {}
}
