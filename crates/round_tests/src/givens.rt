// What rounds are given.
use crate::heads::{response_head, view};
use cache_law::rounds::Given;
use cache_law::{ObjectView, Reply, Told};
use freshness::Timing;
use http_heads::{Exchange, Got};
use std::alloc::{AllocError, Global};
use units::Text;

// The object numbered 7, which a backend can confirm.
fn object(alloc: Global) -> Result<ObjectView, AllocError> {
    let timing = Timing {
        origin: 1_000,
        ttl: 5_000,
        grace: 10_000,
        keep: 10_000,
    };
    view(alloc, 7, b"HTTP/1.1 200 OK\r\nETag: \"e\"\r\n\r\n", timing)
}

fn lookup_told(alloc: Global, word: &str) -> Result<Reply, AllocError> {
    match word {
        "hit" => Ok(Reply::Hit(object(alloc)?)),
        "hitpass" => Ok(Reply::HitPass),
        "hitmiss" => Ok(Reply::HitMiss { token: 3 }),
        "grace" => Ok(Reply::Grace {
            object: object(alloc)?,
            token: Some(3),
        }),
        "wait" => Ok(Reply::Wait(3)),
        "stale" => Ok(Reply::Miss {
            token: 3,
            stale: Some(object(alloc)?),
        }),
        _ => Ok(Reply::Miss {
            token: 3,
            stale: None,
        }),
    }
}

fn reply(alloc: Global, word: &str) -> Result<Reply, AllocError> {
    match word {
        "began" => Ok(Reply::Began {
            number: 1,
            vcl: 9,
            text: Text::of(alloc, b"vcl 4.1;")?,
        }),
        "noround" => Ok(Reply::NoRound),
        "banned" => Ok(Reply::Banned),
        "purged" => Ok(Reply::Purged(2)),
        "drawn" => Ok(Reply::Drawn(4)),
        "picked" => Ok(Reply::Picked(Some(Text::of(alloc, b"default")?))),
        "unhealthy" => Ok(Reply::Picked(None)),
        "stored" => Ok(Reply::Stored(3)),
        "gone" => Ok(Reply::StaleGone),
        "dropped" => Ok(Reply::Dropped),
        "ended" => Ok(Reply::Ended),
        _ => lookup_told(alloc, word),
    }
}

fn backend_reply(alloc: Global, head: &[u8], body: &[u8]) -> Result<Exchange, AllocError> {
    let head = response_head(alloc, head)?;
    let body = Text::of(alloc, body)?;
    Ok(Exchange::Reply(head, body))
}

fn exchange(alloc: Global, word: &str) -> Result<Exchange, AllocError> {
    match word {
        "page" => backend_reply(alloc, b"HTTP/1.1 200 OK\r\n\r\n", b"hi"),
        "unchanged" => backend_reply(alloc, b"HTTP/1.1 304 Not Modified\r\n\r\n", b""),
        _ => Ok(Exchange::Fault(1)),
    }
}

/// What the word says, at the moment 8000.
pub fn given(alloc: Global, word: &str) -> Result<Given, AllocError> {
    match word {
        "sent" => Ok(Given::Sent),
        "page" | "unchanged" | "fault" => Ok(Given::Exchange(Got {
            moment: 8_000,
            exchange: exchange(alloc, word)?,
        })),
        _ => Ok(Given::Reply(Told {
            moment: 8_000,
            place: 0,
            reply: reply(alloc, word)?,
        })),
    }
}
