// Streams to backends that are kept for a further exchange.

use std::alloc::{AllocError, Global};
use std::io::ErrorKind;
use std::net::OpenStream;
use std::rt::Clock;
use std::time::{Duration, Instant};
use units::Text;

/// How many seconds a stream is kept without use at most.
const KEEP_SECONDS: u64 = 5;

/// Of how many hosts and ports a stream is kept at most.
const MAX_KEPT: usize = 64;

/// A stream to a host's port over which an exchange ended by its framing, with the moment of that.
#[derive(Drop)]
struct KeptStream<T: OpenStream + Drop> {
    host: Text,
    port: Text,
    stream: T,
    since: Instant,
}

impl<T: OpenStream + Drop> KeptStream<T> {
    fn leads_to(&self, host: &Text, port: &Text) -> bool {
        self.host.bytes() == host.bytes() && self.port.bytes() == port.bytes()
    }

    // Whether it isn't too old.
    fn is_young<R: Clock>(&self, rt: &R) -> bool {
        match self.since.elapsed(rt) {
            Ok(time) => time < Duration::from_secs(KEEP_SECONDS),
            Err(_) => false,
        }
    }
}

// Whether the other end has neither sent a byte nor ended it. Such a byte belongs to no request.
fn is_silent<T: OpenStream>(stream: &T) -> bool {
    if stream.set_nonblocking(true).is_err() {
        return false;
    }
    let mut room = [0u8; 1];
    let is_silent = match stream.peek(&mut room) {
        Ok(_) => false,
        Err(error) => error.kind() == ErrorKind::WouldBlock,
    };
    is_silent && stream.set_nonblocking(false).is_ok()
}

/// At most one stream for each host and port.
#[derive(Drop)]
pub(crate) struct KeptStreams<T: OpenStream + Drop> {
    streams: Vec<KeptStream<T>>,
}

impl<T: OpenStream + Drop> KeptStreams<T> {
    pub fn new(alloc: Global) -> KeptStreams<T> {
        KeptStreams {
            streams: Vec::new(alloc),
        }
    }

    /// Makes room for one that is kept later.
    pub fn reserve(&mut self) -> Result<(), AllocError> {
        self.streams.reserve(1)
    }

    // Takes the one to there out.
    fn remove(&mut self, host: &Text, port: &Text) -> Option<KeptStream<T>> {
        let place = self
            .streams
            .iter()
            .position(|kept| kept.leads_to(host, port))?;
        Some(self.streams.swap_remove(place))
    }

    /// The stream to there, if one is kept that may be used.
    pub fn take<R: Clock>(&mut self, rt: &R, host: &Text, port: &Text) -> Option<T> {
        let kept = self.remove(host, port)?;
        if kept.is_young(rt) && is_silent(&kept.stream) {
            Some(kept.stream)
        } else {
            None
        }
    }

    /// Keeps a stream to there, in place of an earlier one; where too many are kept, another goes. Where room wasn't made it is
    /// closed.
    pub fn keep<R: Clock>(&mut self, rt: &R, host: Text, port: Text, stream: T) {
        drop(self.remove(&host, &port));
        if self.streams.len() >= MAX_KEPT {
            drop(self.streams.swap_remove(0));
        }
        if let Ok(since) = Instant::now(rt) {
            let _ = self.streams.push(KeptStream {
                host,
                port,
                stream,
                since,
            });
        }
    }
}
