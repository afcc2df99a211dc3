// Backends over TCP.
ghost use Rattle.std.specs.Prelude.{◌≡◌, None};

use crate::backend_link::Past;
use crate::backends::{Backends, Standing, Turn};
use crate::kept_streams::KeptStreams;
use crate::known_names::{KnownNames, addresses_of};
use crate::{BackendLink, TcpLink};
use edge::Outside;
use std::alloc::Global;
use std::io::{self, ErrorKind};
use std::net::{SocketAddr, TcpStream};
use std::sync::Arc;
use std::thread;
use std::time::{Duration, Instant};
use units::Text;
use wire::{DialError, DialLimits, Dialer, Peer};

/// How many seconds a write takes at most.
const CALL_SECONDS: u64 = 60;

/// How often it is asked at most, and how many milliseconds apart, whether a dial's turn has come where half of all wait for a backend.
const TURNS: u32 = 100;

const TURN_MILLIS: u64 = 10;

/// The limits of a dialer that was told none.
const LIMITS: DialLimits = DialLimits {
    connecting: 3_500,
    first_byte: 60_000,
    between_bytes: 60_000,
    whole: None,
    most_open: None,
};

/// A dialer over the system's network. It tells nothing of its talks.
#[derive(Drop)]
pub struct TcpDialer<R: Outside> {
    pub rt: R,
    /// What each later dial and the reads on its connection may take.
    pub limits: DialLimits,
    pub dial_faults: u64,
    pub read_faults: u64,
    pub write_faults: u64,
    /// What is known of backends, for all dialers that share it.
    pub backends: Arc<Backends, Global>,
    kept: KeptStreams<TcpStream>,
}

impl<R: Outside> TcpDialer<R> {
    pub fn new(rt: R, backends: Arc<Backends, Global>) -> TcpDialer<R>
        ensures dials { result.dial_faults ≡ 0 }
        ensures reads { result.read_faults ≡ 0 }
        ensures writes { result.write_faults ≡ 0 }
    {
        backends.count_dialer();
        TcpDialer {
            rt,
            limits: LIMITS,
            dial_faults: 0,
            read_faults: 0,
            write_faults: 0,
            backends,
            kept: KeptStreams::new(rt.alloc()),
        }
    }

    // A stream that an earlier exchange with there left, and the moment; or a new one.
    fn open_stream(&mut self, host: &Text, port: &Text) -> io::Result<(TcpStream, Instant, Past)>
        ensures dials { self.new.dial_faults ≡ self.old.dial_faults }
        ensures reads { self.new.read_faults ≡ self.old.read_faults }
        ensures writes { self.new.write_faults ≡ self.old.write_faults }
    {
        if let Some(stream) = self.kept.take(&self.rt, host, port) {
            let start = Instant::now(&self.rt)?;
            return Ok((stream, start, Past::Earlier(Vec::new(self.rt.alloc()))));
        }
        let (stream, start) = connect(&self.rt, &self.backends.names, host, port, &self.limits)?;
        Ok((stream, start, Past::Own))
    }

    // How many connections to one backend there may be.
    fn most_open(&self) -> u64 {
        match self.limits.most_open {
            Some(most) if most > 0 => most as u64,
            _ => u64::MAX,
        }
    }

    // Waits until an exchange may wait for a first byte from there.
    fn take_turn(&self, host: &Text, port: &Text) -> io::Result<()> {
        let most_open = self.most_open();
        for _ in 0..TURNS {
            match self.backends.begin_wait(&self.rt, host, port, most_open)? {
                Turn::Begun => return Ok(()),
                Turn::Later => thread::sleep(&self.rt, Duration::from_millis(TURN_MILLIS)),
                Turn::Refused => break,
            }
        }
        Err(io::Error::from(ErrorKind::WouldBlock))
    }

    // The same, once not too many wait for a first byte from there.
    fn stream_to(&mut self, host: &Text, port: &Text) -> io::Result<(TcpStream, Instant, Past)>
        ensures dials { self.new.dial_faults ≡ self.old.dial_faults }
        ensures reads { self.new.read_faults ≡ self.old.read_faults }
        ensures writes { self.new.write_faults ≡ self.old.write_faults }
    {
        self.take_turn(host, port)?;
        let opened = self.open_stream(host, port);
        if opened.is_err() {
            let found = Some(Standing::Unreachable);
            self.backends.end_wait(&self.rt, host, port, found);
            self.backends.end_connection(&self.rt, host, port);
        }
        opened
    }
}

// A stream to the first of the addresses that answers, by what is left of the time from the start. Small pieces are sent at once, and
// writes that take too long fail.
fn connect_to_one<R: Outside>(
    rt: &R,
    addresses: &[SocketAddr],
    start: Instant,
    limit: Duration,
) -> io::Result<TcpStream> {
    for address in addresses {
        let left = limit.saturating_sub(start.elapsed(rt)?);
        if left.is_zero() {
            break;
        }
        if let Ok(stream) = TcpStream::connect_timeout(rt, address, left) {
            stream.set_nodelay(true)?;
            stream.set_write_timeout(Some(Duration::from_secs(CALL_SECONDS)))?;
            return Ok(stream);
        }
    }
    Err(io::Error::from(ErrorKind::TimedOut))
}

// A stream to a host's port, and when it was dialed. That its name is looked up counts.
pub(crate) fn connect<R: Outside>(
    rt: &R,
    names: &KnownNames,
    host: &Text,
    port: &Text,
    limits: &DialLimits,
) -> io::Result<(TcpStream, Instant)> {
    let limit = Duration::from_millis(limits.connecting);
    let start = Instant::now(rt)?;
    let addresses = addresses_of(rt, names, host, port, limit)?;
    let stream = connect_to_one(rt, addresses.as_slice(), start, limit)?;
    Ok((stream, start))
}

impl<R: Outside> Dialer for TcpDialer<R> {
    type Link = BackendLink<R>;

    ghost talks = { λ _. None };

    ghost dial_faults = { λ d. d.dial_faults };

    ghost read_faults = { λ d. d.read_faults };

    ghost write_faults = { λ d. d.write_faults };

    fn within(&mut self, limits: DialLimits) {
        self.limits = limits;
    }

    /// While half of all who dial wait for a first byte from there it waits for its turn, for a second at most; it fails at once where
    /// they have waited there for a second. So one backend never takes all workers for long. It fails at once as well where as many
    /// connections to there are open as there may be.
    fn dial(&mut self, host: &Text, port: &Text) -> Result<BackendLink<R>, DialError> {
        let peer = Peer::Dialed {
            host: host.copy()?,
            port: port.copy()?,
        };
        self.kept.reserve()?;
        let backends = Arc::try_clone(&self.backends)?;
        match self.stream_to(host, port) {
            Ok((stream, start, past)) => Ok(BackendLink {
                link: TcpLink::new(stream, peer),
                rt: self.rt,
                backends,
                limits: self.limits,
                start,
                has_begun: false,
                past,
                is_reusable: false,
            }),
            Err(_) => {
                self.dial_faults = self.dial_faults.saturating_add(1);
                Err(DialError::Failed)
            }
        }
    }

    /// A stream that may serve another exchange is kept.
    fn hang_up(&mut self, link: BackendLink<R>) {
        link.leave();
        let BackendLink {
            link,
            is_reusable,
            ..
        } = link;
        if link.read_faults > 0 {
            self.read_faults = self.read_faults.saturating_add(1);
        }
        if link.write_faults > 0 {
            self.write_faults = self.write_faults.saturating_add(1);
        }
        if let (true, Peer::Dialed { host, port }) = (is_reusable, link.peer) {
            self.kept.keep(&self.rt, host, port, link.stream);
        }
    }
}
