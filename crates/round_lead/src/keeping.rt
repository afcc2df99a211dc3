// What is kept of a round.
ghost use Rattle.std.specs.Prelude.{◌≡◌, false};

use cache_law::rounds::Request;
use http_heads::Got;
use std::alloc::Global;

/// What is kept of a round: its request, the client's address, the places of its entries in the history, its exchanges, and the
/// bytes that its client was sent.
#[derive(Drop)]
pub struct Round {
    pub request: Request,
    pub peer: [u8; 4],
    pub numbers: Vec<u64>,
    pub exchanges: Vec<Got>,
    pub sent: Vec<u8>,
}

/// A round that is led: what is kept of it so far.
#[derive(Drop)]
pub(crate) struct Progress {
    pub numbers: Vec<u64>,
    pub exchanges: Vec<Got>,
    pub sent: Vec<u8>,
    /// Whether it is open in the cache.
    pub is_open: bool,
    /// Whether the response was sent, and says that the connection closes.
    pub closes: bool,
}

impl Progress {
    ghost use Rattle.round_lead.specs.Steps.{IsFirst};

    pub(crate) fn new(alloc: Global) -> Progress
        ensures { IsFirst result }
    {
        Progress {
            numbers: Vec::new(alloc),
            exchanges: Vec::new(alloc),
            sent: Vec::new(alloc),
            is_open: false,
            closes: false,
        }
    }

    /// What is kept of the round of this request.
    pub(crate) fn kept(self, request: Request, peer: [u8; 4]) -> Round
        ensures { result ≡ record { request = request; peer = peer; numbers = self.numbers; exchanges = self.exchanges; sent = self.sent } }
    {
        let Progress {
            numbers,
            exchanges,
            sent,
            is_open: _,
            closes: _,
        } = self;
        Round {
            request,
            peer,
            numbers,
            exchanges,
            sent,
        }
    }
}
