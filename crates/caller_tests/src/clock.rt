// A clock for callers that run side by side.
ghost use Rattle.std.specs.Prelude.{None};

use wire::Clock;

/// A clock that goes on by the same step at each reading, up to the greatest number. It tells nothing.
#[derive(Drop)]
pub struct SteadyClock {
    pub next: u64,
    pub step: u64,
}

impl Clock for SteadyClock {
    ghost readings = { λ _. None };

    ghost words = { λ _. None };

    fn now(&mut self) -> u64 {
        let reading = self.next;
        self.next = reading.saturating_add(self.step);
        reading
    }

    fn word(&mut self) -> u64 {
        0
    }

    fn rest(&mut self, _millis: u64) {}
}
