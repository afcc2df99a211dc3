// Kits in memory.
ghost use Rattle.std.specs.Prelude.{◌≡◌, ◌<◌, vec_len, IfOk};
ghost use Rattle.world.specs.WorldMemory.{kit_of};

use crate::Kit;
use std::alloc::{AllocError, Global};
use std::collections::VecDeque;
use std::marker::Model;
use wire::{Clock, FailingDialer, Kept, Plan, ScriptedClock, place};

/// The clock of a kit in memory. It has the kit's place among those that are handed back.
#[derive(Drop)]
pub struct KitClock {
    pub(crate) clock: ScriptedClock,
    pub(crate) place: Box<Kept<Kit<FailingDialer, ScriptedClock>>>,
}

impl Model for KitClock {
    ghost use Rattle.wire.specs.Tapes.{ClockState};

    ghost Value = { ClockState };

    ghost view = { λ c. c.clock };
}

impl Clock for KitClock {
    ghost use Rattle.std.specs.Prelude.{Some};

    ghost readings = { λ c. Some c.readings };

    ghost words = { λ c. Some c.words };

    fn now(&mut self) -> u64 {
        self.clock.now()
    }

    fn word(&mut self) -> u64 {
        self.clock.word()
    }

    /// No time passes.
    fn rest(&mut self, millis: u64)
        ensures readings { Some self.new.readings ≡ Some self.old.readings }
        ensures words { Some self.new.words ≡ Some self.old.words }
        ensures same { self.new ≡ self.old }
    {
        self.clock.rest(millis);
    }
}

/// A kit that is to be given: the connections that its dialer gives and the numbers of the dials that fail, and what its clock
/// tells. It takes its memory here.
#[derive(Drop)]
pub struct PlannedKit {
    dials: VecDeque<Plan>,
    failing: Vec<u64>,
    readings: Vec<u64>,
    words: Vec<u64>,
    place: Box<Kept<Kit<FailingDialer, ScriptedClock>>>,
}

impl Model for PlannedKit {
    ghost use Rattle.std.specs.Prelude.{◌<◌, length};
    ghost use Rattle.world.specs.WorldMemory.{PlannedState};

    ghost Value = { PlannedState };

    ghost view = { λ k. record { dials = k.dials.items; failing = k.failing.items; readings = k.readings.items; words = k.words.items } };

    ghost invariant = { λ k. (0 < length k.readings.items) × (0 < length k.words.items) };
}

impl PlannedKit {
    /// At least one reading and one word.
    pub fn new(
        alloc: Global,
        dials: VecDeque<Plan>,
        failing: Vec<u64>,
        readings: Vec<u64>,
        words: Vec<u64>,
    ) -> Result<PlannedKit, AllocError>
        requires readings { 0 < vec_len readings }
        requires words { 0 < vec_len words }
        ensures { IfOk result (λ kit. kit ≡ record { dials = dials.items; failing = failing.items; readings = readings.items; words = words.items }) }
    {
        Ok(PlannedKit {
            dials,
            failing,
            readings,
            words,
            place: place(alloc)?,
        })
    }

    // The kit, as it is given.
    pub(crate) fn kit(self, alloc: Global) -> Kit<FailingDialer, KitClock>
        ensures { result ≡ kit_of self }
    {
        let PlannedKit {
            dials,
            failing,
            readings,
            words,
            place,
        } = self;
        let dialer = FailingDialer::new(alloc, dials, failing);
        let clock = ScriptedClock::new(readings, words);
        Kit {
            dialer,
            clock: KitClock { clock, place },
        }
    }
}
