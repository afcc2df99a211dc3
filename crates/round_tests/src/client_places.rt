// Rounds at their beginning, and what is kept in them.
use crate::heads::{GET, PEER, query, request, view};
use cache_law::ObjectView;
use client_graph::{FoundObject, HeldFetch, Next, open};
use freshness::Timing;
use std::alloc::{AllocError, Global};
use units::Shared;

/// The beginning of a round with number 1, which was restarted so often.
pub fn begun(alloc: Global, text: &[u8], restarts: u32) -> Result<Next, AllocError> {
    let request = request(alloc, text, b"abc")?;
    let mut next = open(alloc, 1, 9, request, PEER)?;
    if let Next::Enter { round, .. } = &mut next {
        round.restarts = restarts;
    }
    Ok(next)
}

/// An object with number 2, made at 1000, fresh for 5000.
pub fn object(alloc: Global) -> Result<ObjectView, AllocError> {
    let timing = Timing {
        origin: 1_000,
        ttl: 5_000,
        grace: 0,
        keep: 0,
    };
    view(alloc, 2, b"HTTP/1.1 200 OK\r\n\r\n", timing)
}

/// What is kept for a fetch with the token 7.
pub fn held(alloc: Global) -> Result<HeldFetch, AllocError> {
    Ok(HeldFetch {
        token: 7,
        query: Shared::new(alloc, query(alloc, GET)?)?,
        moment: 3_000,
        stale: None,
    })
}

/// The object as it was found at 3000.
pub fn found(alloc: Global, held: Option<HeldFetch>) -> Result<FoundObject, AllocError> {
    let view = object(alloc)?;
    Ok(FoundObject {
        view,
        moment: 3_000,
        held,
    })
}

/// What doesn't fit where the round stands is let go.
pub fn unlike<V: Drop>(_held: V, next: Next) -> Next {
    next
}
