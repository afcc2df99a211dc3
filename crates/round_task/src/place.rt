// Where a round stands.
use cache_law::rounds::Request;
use client_task::Client;
use fetch_task::Fetch;

/// A place in a round; `M` runs its subroutines.
#[derive(Drop)]
pub enum Place<M> {
    /// Its Begin isn't answered yet.
    Opening {
        request: Request,
        peer: [u8; 4],
    },
    /// What is given is its client's.
    Client(Client<M>),
    /// What is given is its client's fetch's, which has this number. It lies on the heap, so that a place is small.
    Fetch {
        client: Client<M>,
        number: u64,
        fetch: Box<Fetch>,
    },
    Over,
    /// Memory was wanting.
    Broken,
}
