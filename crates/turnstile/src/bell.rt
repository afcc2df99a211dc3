// Sleeping and waking. No contract rests on it.
use std::sync::Wait;
use std::sync::atomic::AtomicU64;
use std::sync::atomic::Ordering::SeqCst;

/// A place where threads sleep until it is rung.
#[derive(Drop)]
pub(crate) struct Bell {
    // How many threads sleep or are about to.
    asleep: AtomicU64,
    rings: AtomicU64,
}

impl Bell {
    pub fn new() -> Bell {
        Bell {
            asleep: AtomicU64::new(0),
            rings: AtomicU64::new(0),
        }
    }

    /// Says that this thread is about to sleep: every ring from now on counts for it.
    pub fn lie_down(&self) -> u64 {
        self.asleep.fetch_add(1, SeqCst);
        self.rings.load(SeqCst)
    }

    /// Sleeps, unless it was rung since the thread lay down, and may wake for no reason.
    pub fn sleep<R: Wait>(&self, rt: &R, heard: u64) {
        self.rings.park(rt, (heard & 0xffff_ffff) as u32);
        self.rise();
    }

    /// Says that the thread sleeps no more.
    pub fn rise(&self) {
        self.asleep.fetch_sub(1, SeqCst);
    }

    pub fn has_sleepers(&self) -> bool {
        self.asleep.load(SeqCst) > 0
    }

    /// Wakes all that sleep, and makes no call of the system where nobody does.
    pub fn ring_all(&self) {
        if self.has_sleepers() {
            self.rings.fetch_add(1, SeqCst);
            self.rings.wake_all();
        }
    }

    /// Wakes one that sleeps.
    pub fn ring_one(&self) {
        self.rings.fetch_add(1, SeqCst);
        self.rings.wake_one();
    }
}
