// Calls that fail at chosen numbers.
ghost use Rattle.std.specs.Prelude.{◌≡◌, ◌↔◌, ◌≤◌, true, Contains};
ghost use Rattle.wire.specs.Calls.{called, joined, missed, uncalled};

use std::marker::Model;

/// Calls are numbered from 0 on, and those with the given numbers fail.
#[derive(Drop)]
pub struct Calls {
    failing: Vec<u64>,
    calls: u64,
    faults: u64,
}

impl Model for Calls {
    ghost use Rattle.wire.specs.Calls.{Counted};

    ghost Value = { Counted };

    ghost view = { λ c. record { failing = c.failing.items; calls = c.calls; faults = c.faults } };
}

impl Calls {
    pub fn new(failing: Vec<u64>) -> Calls
        ensures { result ≡ uncalled failing.items }
    {
        Calls {
            failing,
            calls: 0,
            faults: 0,
        }
    }

    /// Counts a call, and tells whether it is one of those that fail.
    pub fn call(&mut self) -> bool
        ensures fails { result ≡ true ↔ Contains self.old.failing self.old.calls }
        ensures calls { self.new ≡ called self.old }
    {
        let fails = self.failing.contains(&self.calls);
        self.calls = self.calls.saturating_add(1);
        fails
    }

    /// Counts a fault.
    pub fn fault(&mut self)
        ensures faults { self.new ≡ missed self.old }
        ensures later { self.old.faults ≤ self.new.faults }
    {
        self.faults = self.faults.saturating_add(1);
    }

    /// Adds the faults of other calls.
    pub fn join(&mut self, faults: u64)
        ensures faults { self.new ≡ joined self.old faults }
        ensures later { self.old.faults ≤ self.new.faults }
    {
        self.faults = self.faults.saturating_add(faults);
    }

    pub fn faults(&self) -> u64
        ensures { result ≡ self.now.faults }
    {
        self.faults
    }
}
