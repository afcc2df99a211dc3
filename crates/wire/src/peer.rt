// The other end of a connection.
use units::Text;

/// Where the other end of a connection is.
#[derive(Drop)]
pub enum Peer {
    /// The address that an accepted connection came from.
    Accepted([u8; 4]),
    /// The host and the port that were dialed.
    Dialed { host: Text, port: Text },
}

/// A dial, and the link that came of it, as it was handed back; None where the dial failed.
#[derive(Drop)]
pub struct Talk<L> {
    pub peer: Peer,
    pub link: Option<L>,
}
