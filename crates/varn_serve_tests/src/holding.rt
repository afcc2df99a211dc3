// A gate that shows that workers run side by side.
use std::sync::atomic::{AtomicBool, AtomicU64, Ordering};
use std::thread;
use world::{Gate, Place};

/// How often the caller that is held looks for an answer of the other one.
const LOOKS: u32 = 10_000_000;

/// Holds the first of two callers before its exchange until a call of the other one was answered.
#[derive(Drop)]
pub struct HoldingGate {
    held: AtomicU64,
    first: AtomicBool,
    second: AtomicBool,
    failed: AtomicBool,
}

impl HoldingGate {
    pub fn new() -> HoldingGate {
        HoldingGate {
            held: AtomicU64::new(0),
            first: AtomicBool::new(false),
            second: AtomicBool::new(false),
            failed: AtomicBool::new(false),
        }
    }

    /// Whether the other caller came while one was held.
    pub fn went_well(&self) -> bool {
        self.held.load(Ordering::SeqCst) != 0 && !self.failed.load(Ordering::SeqCst)
    }

    fn mark(&self, caller: u32) {
        if caller == 1 {
            self.first.store(true, Ordering::SeqCst);
        } else {
            self.second.store(true, Ordering::SeqCst);
        }
    }

    fn other_came(&self, caller: u32) -> bool {
        if caller == 1 {
            self.second.load(Ordering::SeqCst)
        } else {
            self.first.load(Ordering::SeqCst)
        }
    }

    fn hold(&self, caller: u32) {
        for _ in 0..LOOKS {
            if self.other_came(caller) {
                return;
            }
            thread::yield_now();
        }
        self.failed.store(true, Ordering::SeqCst);
    }
}

impl Gate for HoldingGate {
    fn point(&self, caller: u32, place: Place) {
        match place {
            Place::Answered => self.mark(caller),
            Place::BeforeExchange => {
                let taken = self
                    .held
                    .compare_exchange(0, u64::from(caller), Ordering::SeqCst, Ordering::SeqCst);
                if taken.is_ok() {
                    self.hold(caller);
                }
            }
            Place::Called | Place::AfterExchange | Place::Settled => {}
        }
    }
}
