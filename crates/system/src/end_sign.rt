// Whether a run is over.
use std::sync::atomic::{AtomicBool, Ordering};

/// Whether a run is over, for a console that waits for an operator.
#[derive(Drop)]
pub struct EndSign {
    is_raised: AtomicBool,
}

impl EndSign {
    /// A sign of a run that goes on.
    pub fn new() -> EndSign {
        EndSign {
            is_raised: AtomicBool::new(false),
        }
    }

    /// Says that the run is over.
    pub fn raise(&self) {
        self.is_raised.store(true, Ordering::SeqCst);
    }

    pub(crate) fn is_raised(&self) -> bool {
        self.is_raised.load(Ordering::SeqCst)
    }
}
