// What is asked of a backend, and what came of it.
use crate::{RequestHead, ResponseHead};
use units::Text;

/// A backend, by its name in VCL and its place in the network.
#[derive(Drop)]
pub struct Backend {
    pub name: Text,
    pub host: Text,
    pub port: Text,
}

/// A request as it is sent to a backend.
#[derive(Drop)]
pub struct BackendRequest {
    pub head: RequestHead,
    pub body: Text,
}

/// What came of a request to a backend.
#[derive(Drop)]
pub enum Exchange {
    /// The head and the body of the reply.
    Reply(ResponseHead, Text),
    /// 1 the dial failed; 2 a write and 3 a read failed; 4 the bytes end inside the reply; 5 its head
    /// and 6 its body are refused; 7 it is too large.
    Fault(u8),
    NoMemory,
}

/// An exchange and the moment of its end, in milliseconds since 1970.
#[derive(Drop)]
pub struct Got {
    pub moment: u64,
    pub exchange: Exchange,
}
