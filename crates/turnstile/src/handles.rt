// What callers have of a lock.
ghost use Rattle.std.specs.Prelude.{◌≡◌};

use crate::chronicle::Chronicle;
use crate::knowledge::View;
use atomic_table::{Badge, Seat};

/// The right to take turns under one caller's number. It has no bytes but that number.
#[derive(Drop)]
pub struct Pass<E, G> {
    pub(crate) badge: Badge<View<E, G>>,
    pub(crate) number: u32,
}

impl<E, G> Pass<E, G> {
    ghost use Rattle.turnstile.specs.Handles.{number_of};

    /// The caller's number.
    pub fn number(&self) -> u32
        ensures { result ≡ number_of self.now }
    {
        self.number
    }
}

/// A turn. The value may be changed in place; then `give_back` passes the turn on.
pub struct Held<T: Chronicle> {
    pub value: T,
    pub(crate) seat: Seat<Option<T>, View<T::Entry, T::Setting>>,
}

/// There was no memory. The value comes back.
#[derive(Drop)]
pub struct Returned<T> {
    pub value: T,
}
