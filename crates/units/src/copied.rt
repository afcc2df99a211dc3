// A second value that is equal to the first.
ghost use Rattle.std.specs.Prelude.{◌≡◌, ◌++◌, IfOk, OnOk, OnErr};

use crate::{Sequence, Text};
use std::alloc::{AllocError, Global};

/// A value that can be copied, for want of memory or not at all.
pub trait Copied {
    /// An equal value. What it shares with this one can't be told.
    fn copied(&self, alloc: Global) -> Result<Self, AllocError>
        ensures { IfOk result (λ copy. copy ≡ self.now) };
}

impl Copied for Text {
    fn copied(&self, alloc: Global) -> Result<Self, AllocError> {
        self.copy()
    }
}

impl<T: Copied + Drop> Copied for Sequence<T> {
    fn copied(&self, alloc: Global) -> Result<Self, AllocError> {
        let items = self.as_slice();
        let mut copy = Vec::with_capacity(alloc, items.len())?;
        for item in items {
            copy.push(item.copied(alloc)?)?;
        }
        Ok(Sequence::from_vec(copy))
    }
}
