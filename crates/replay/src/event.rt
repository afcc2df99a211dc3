// What a session tells the schedule.
use crate::{Boxed, Request};
use units::{Sequence, Text};

/// One line of a session, as the schedule plays it.
#[derive(Drop)]
pub enum Event {
    /// The moment from here on, in milliseconds since 1970.
    Moment(u64),
    /// A client sends a request, or the console a line.
    Request(Boxed<Request>),
    /// The exchange of this fetch is over.
    Reply { fetch: u64, heard: Heard },
    Aside(Aside),
}

/// What a line says that is none of a client's, a backend's or the console's.
#[derive(Drop)]
pub enum Aside {
    /// The lurker tests so many objects at most.
    Lurk(u32),
    /// A probe of the backend of this name was good, or was not.
    Probe { backend: Text, good: bool },
}

/// How an exchange is over.
#[derive(Drop)]
pub enum Heard {
    /// These bytes came, and their end.
    Bytes(Text),
    /// The backend couldn't be reached.
    Fault,
}

/// An event, and the number of its line.
#[derive(Drop)]
pub struct NumberedEvent {
    pub number: u32,
    pub event: Event,
}

/// A session as the schedule plays it: its events in order, and the line of its `end`.
#[derive(Drop)]
pub struct Script {
    pub events: Sequence<NumberedEvent>,
    pub end: u32,
}
