// Large values that stand apart from what holds them.
ghost use Rattle.std.specs.Prelude.{◌≡◌, IfOk};

use std::alloc::{AllocError, Global};
use std::marker::Model;

/// A value on the heap, so that what holds it is small. Clauses see the value.
#[derive(Drop)]
pub struct Boxed<T> {
    held: Box<T>,
}

impl<T> Model for Boxed<T> {
    ghost Value = { T };

    ghost view = { λ apart. apart.held.value };
}

impl<T> Boxed<T> {
    pub fn new(alloc: Global, value: T) -> Result<Boxed<T>, AllocError>
    where
        T: Drop,
        ensures { IfOk result (λ apart. apart ≡ value) }
    {
        Ok(Boxed {
            held: Box::new(alloc, value)?,
        })
    }

    /// The value itself. Its place on the heap is given back.
    pub fn into_inner(self) -> T
        ensures { result ≡ self }
    {
        Box::into_inner(self.held)
    }
}
