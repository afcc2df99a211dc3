// What a wait for connections comes to.

/// What came of a bounded wait for a connection.
#[derive(Drop)]
pub enum Awaited<L> {
    /// A connection, and the address that it came from.
    Came(L, [u8; 4]),
    /// Nobody came in the time that a call waits. It may be asked again.
    NobodyYet,
    /// No connection comes any more.
    End,
}
