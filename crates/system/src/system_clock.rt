// The system's clock.
ghost use Rattle.std.specs.Prelude.{◌≡◌, None};

use rand_core::{Rng, SeedableRng};
use rand_xoshiro::Xoshiro256PlusPlus;
use std::random::RandomSource;
use std::time::{Duration, SystemTime, UNIX_EPOCH};
use std::{rt, thread};
use wire::Clock;

/// The system's clock, and random words of a generator that the system seeds. The words spread load and are no secrets. It
/// tells nothing of its readings.
#[derive(Drop)]
pub struct SystemClock<R: rt::Clock + Drop> {
    rt: R,
    latest: u64,
    generator: Xoshiro256PlusPlus,
}

// Milliseconds since 1970, where the system's clock can be read.
fn milliseconds(rt: &impl rt::Clock) -> Option<u64> {
    let now = SystemTime::now(rt).ok()?;
    let since = now.duration_since(UNIX_EPOCH).ok()?;
    Some(u64::try_from(since.as_millis()).unwrap_or(u64::MAX))
}

impl<R: rt::Clock + RandomSource + Drop> SystemClock<R> {
    /// A clock whose words come from a seed of the system's, or from the time where the system gives none.
    pub fn new(rt: R) -> SystemClock<R> {
        let latest = milliseconds(&rt).unwrap_or(0);
        let mut seed = [0u8; 32];
        let generator = match rt.fill_bytes(&mut seed) {
            Ok(()) => Xoshiro256PlusPlus::from_seed(seed),
            Err(_) => Xoshiro256PlusPlus::seed_from_u64(latest),
        };
        SystemClock {
            rt,
            latest,
            generator,
        }
    }
}

impl<R: rt::Clock + Drop> Clock for SystemClock<R> {
    ghost readings = { λ _. None };

    ghost words = { λ _. None };

    /// Where the system's clock can't be read, the reading before.
    fn now(&mut self) -> u64 {
        self.latest = milliseconds(&self.rt).unwrap_or(self.latest);
        self.latest
    }

    fn word(&mut self) -> u64 {
        self.generator.next_u64()
    }

    fn rest(&mut self, millis: u64)
        ensures same { self.new ≡ self.old }
    {
        thread::sleep(&self.rt, Duration::from_millis(millis));
    }
}
