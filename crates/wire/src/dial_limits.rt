// What dials may take.

/// How long a dial, and what is read from its connection, may take, each in milliseconds; and how many connections there are at most.
#[derive(Clone, Copy, Debug, PartialEq, Eq)]
pub struct DialLimits {
    /// To connect, over all addresses of the host.
    pub connecting: u64,
    /// From the request to the first byte of the reply.
    pub first_byte: u64,
    /// From one byte of the reply to the next.
    pub between_bytes: u64,
    /// From the dial to the last byte of the reply. None where only the others count.
    pub whole: Option<u64>,
    /// To one host and port at once, with this one. None or 0 where there may be any number.
    pub most_open: Option<i64>,
}
