// An exchange with a client.
use http_heads::{RequestHead, ResponseHead};
use units::Text;

/// What a line tells of an exchange.
#[derive(Drop)]
pub struct Exchange {
    /// The client's address.
    pub address: Text,
    /// None where no request could be read.
    pub request: Option<RequestHead>,
    /// None where nothing was sent that is a response.
    pub response: Option<ResponseHead>,
    /// How many bytes of the response's body were sent.
    pub sent: u64,
    /// How many milliseconds it took.
    pub millis: u64,
}
