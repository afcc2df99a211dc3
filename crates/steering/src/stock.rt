// Where the programs of a worker come from.
use std::alloc::{AllocError, Global};

/// Gives each worker programs of its own.
pub trait Stock<P> {
    fn programs(&self, alloc: Global) -> Result<P, AllocError>;
}
