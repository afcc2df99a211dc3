// What a pass knows, and in which step of a call it is. No value of these types is made.
use std::collections::LinkedList;

/// A number whose pass was joined into another, and the places of its entries.
pub struct Ended {
    pub number: u64,
    pub places: LinkedList<u64>,
}

pub struct Known<E, G> {
    /// The number of the lock's first pass.
    pub first: u64,
    pub setting: Option<G>,
    pub number: u64,
    /// The span of the pass are the numbers from its own on and below this one.
    pub upto: u64,
    /// The history that it has seen.
    pub seen: LinkedList<E>,
    /// The numbers that were split off from it, and from the passes that were joined into it.
    pub made: LinkedList<u64>,
    pub ended: LinkedList<Ended>,
}

pub enum Stage<E, G> {
    Idle,
    /// It is about to split off this number.
    Cutting(u64),
    /// It has drawn this ticket.
    Waiting(u64),
    /// Its ticket is served, and it has the slot.
    Inside(u64),
    /// It has just taken in another. This is what it and the other knew before.
    Joining(Known<E, G>, Known<E, G>),
    /// It was joined into another.
    Spent,
}

pub struct View<E, G> {
    pub known: Known<E, G>,
    pub stage: Stage<E, G>,
}
