// Connections over TCP to backends, each within limits of time.
ghost use Rattle.std.specs.Prelude.{◌≡◌, ◌≤◌, None};
ghost use Rattle.std.specs.Io.{ReadsAtMost, WritesAtMost};

use crate::TcpLink;
use crate::backends::{Backends, Standing};
use crate::tcp_dialer::connect;
use edge::Outside;
use std::alloc::Global;
use std::io::{self, ErrorKind, Read, Write};
use std::mem;
use std::net::TcpStream;
use std::sync::Arc;
use std::time::{Duration, Instant};
use wire::{DialLimits, Failed, Link, Peer, Readiness};

/// What the connection's stream was used for before.
#[derive(Drop)]
pub enum Past {
    /// For nothing, or the backend has answered over it in this exchange.
    Own,
    /// For an earlier exchange. The backend hasn't answered in this one, for which so much was sent: it may have ended the stream
    /// before it saw the request.
    Earlier(Vec<u8>),
}

/// A connection that was dialed. Where the backend has ended a stream of an earlier exchange meanwhile, a request of GET or HEAD
/// without a body is sent once more over a new one (RFC 9112, section 9.3.1); others go over a new stream from the start. It tells
/// nothing of what goes over it.
#[derive(Drop)]
pub struct BackendLink<R: Outside> {
    pub link: TcpLink<TcpStream>,
    pub rt: R,
    pub backends: Arc<Backends, Global>,
    pub limits: DialLimits,
    /// When it was dialed.
    pub start: Instant,
    /// Whether a byte was read.
    pub has_begun: bool,
    pub past: Past,
    /// Whether its stream may serve another exchange.
    pub is_reusable: bool,
}

// Whether a piece may go over a stream that the backend may have ended, behind what was sent over it.
fn may_go_again(sent: &[u8], piece: &[u8]) -> bool {
    if sent.is_empty() {
        piece.starts_with(b"GET ") || piece.starts_with(b"HEAD ")
    } else {
        !sent.ends_with(b"\r\n\r\n")
    }
}

// Whether the other end has ended a stream of which nothing was read yet.
fn is_over(answer: &io::Result<usize>) -> bool {
    match answer {
        Ok(count) => *count == 0,
        Err(error) => matches!(
            error.kind(),
            ErrorKind::ConnectionReset | ErrorKind::ConnectionAborted | ErrorKind::BrokenPipe
        ),
    }
}

// What the first read of an exchange shows of the backend.
fn standing_by(answer: Result<usize, Failed>) -> Standing {
    match answer {
        Ok(count) if count > 0 => Standing::There,
        _ => Standing::Silent,
    }
}

impl<R: Outside> BackendLink<R> {
    /// Says that the backend's first byte isn't waited for any more, and what was seen of the backend.
    pub(crate) fn end_wait(&self, found: Option<Standing>) {
        if let Peer::Dialed { host, port } = &self.link.peer {
            self.backends.end_wait(&self.rt, host, port, found);
        }
    }

    /// Says that the connection is over, and that its first byte isn't waited for any more.
    pub(crate) fn leave(&self) {
        if !self.has_begun {
            self.end_wait(None);
        }
        if let Peer::Dialed { host, port } = &self.link.peer {
            self.backends.end_connection(&self.rt, host, port);
        }
    }

    // How long the next read may take; None where the time for the whole is over, or can't be told.
    fn allowed(&self) -> Option<Duration> {
        let single = Duration::from_millis(if self.has_begun {
            self.limits.between_bytes
        } else {
            self.limits.first_byte
        });
        let Some(whole) = self.limits.whole else {
            return Some(single);
        };
        let spent = self.start.elapsed(&self.rt).ok()?;
        Some(single.min(Duration::from_millis(whole).saturating_sub(spent)))
    }

    // Tells the stream how long the next read may take. No time is no limit to it, and refused.
    fn limit_read(&mut self) -> Result<(), Failed>
        ensures same { self.new ≡ self.old }
    {
        match self.allowed() {
            Some(limit) => {
                if limit.is_zero() {
                    return Err(Failed);
                }
                self.link
                    .stream
                    .set_read_timeout(Some(limit))
                    .map_err(|_| Failed)
            }
            None => Err(Failed),
        }
    }
}

impl<R: Outside> BackendLink<R> {
    // Has what was sent go over a new stream.
    fn begin_anew(&mut self, sent: &[u8]) -> io::Result<()>
        ensures reads { self.new.link.read_faults ≡ self.old.link.read_faults }
        ensures writes { self.new.link.write_faults ≡ self.old.link.write_faults }
        ensures peer { self.new.link.peer ≡ self.old.link.peer }
        ensures is_open { self.new.link.is_open ≡ self.old.link.is_open }
    {
        let (stream, _) = match &self.link.peer {
            Peer::Dialed { host, port } => {
                connect(&self.rt, &self.backends.names, host, port, &self.limits)?
            }
            Peer::Accepted(_) => return Err(io::Error::from(ErrorKind::NotConnected)),
        };
        self.link.stream = stream;
        self.link.stream.write_all(sent)
    }

    // The first read behind a request that went over a stream of an earlier exchange.
    fn read_first(&mut self, sent: &[u8], into: &mut [u8]) -> Result<usize, Failed>
        ensures bound { ReadsAtMost result into.new }
        ensures later { self.old.link.read_faults ≤ self.new.link.read_faults }
        ensures writes { self.new.link.write_faults ≡ self.old.link.write_faults }
        ensures peer { self.new.link.peer ≡ self.old.link.peer }
        ensures is_open { self.new.link.is_open ≡ self.old.link.is_open }
    {
        let answer = self.link.stream.read(into);
        if !is_over(&answer) {
            return answer.map_err(|_| Failed);
        }
        if self.begin_anew(sent).is_err() || self.limit_read().is_err() {
            return Err(Failed);
        }
        self.link.read(into)
    }

    // A read within its time.
    fn read_in_time(&mut self, into: &mut [u8]) -> Result<usize, Failed>
        ensures bound { ReadsAtMost result into.new }
        ensures later { self.old.link.read_faults ≤ self.new.link.read_faults }
        ensures writes { self.new.link.write_faults ≡ self.old.link.write_faults }
        ensures peer { self.new.link.peer ≡ self.old.link.peer }
        ensures is_open { self.new.link.is_open ≡ self.old.link.is_open }
    {
        self.limit_read()?;
        match mem::replace(&mut self.past, Past::Own) {
            Past::Own => self.link.read(into),
            Past::Earlier(sent) => self.read_first(sent.as_slice(), into),
        }
    }

    // Writes a piece of a request behind what was sent of it over a stream of an earlier exchange.
    fn write_first(&mut self, sent: Vec<u8>, piece: &[u8]) -> Result<usize, Failed>
        ensures bound { WritesAtMost result piece.now }
        ensures later { self.old.link.write_faults ≤ self.new.link.write_faults }
        ensures reads { self.new.link.read_faults ≡ self.old.link.read_faults }
        ensures peer { self.new.link.peer ≡ self.old.link.peer }
        ensures is_open { self.new.link.is_open ≡ self.old.link.is_open }
    {
        let mut sent = sent;
        if may_go_again(sent.as_slice(), piece) {
            if let Ok(count) = self.link.stream.write(piece) {
                let taken = piece.get(..count).unwrap_or_default();
                if sent.extend_from_slice(taken).is_ok() {
                    self.past = Past::Earlier(sent);
                }
                return Ok(count);
            }
        }
        if self.begin_anew(sent.as_slice()).is_err() {
            return Err(Failed);
        }
        self.link.write(piece)
    }
}

impl<R: Outside> Link for BackendLink<R> {
    ghost flow = { λ _. None };

    ghost read_faults = { λ l. l.link.read_faults };

    ghost write_faults = { λ l. l.link.write_faults };

    ghost peer = { λ l. l.link.peer };

    ghost is_open = { λ l. l.link.is_open };

    /// What doesn't come in time is a fault.
    fn read(&mut self, into: &mut [u8]) -> Result<usize, Failed> {
        if into.is_empty() {
            return Ok(0);
        }
        let answer = self.read_in_time(into);
        if !self.has_begun {
            self.end_wait(Some(standing_by(answer)));
        }
        self.has_begun = true;
        if answer.is_err() {
            self.link.read_faults = self.link.read_faults.saturating_add(1);
        }
        answer
    }

    fn write(&mut self, piece: &[u8]) -> Result<usize, Failed> {
        let answer = match mem::replace(&mut self.past, Past::Own) {
            Past::Own => return self.link.write(piece),
            Past::Earlier(sent) => self.write_first(sent, piece),
        };
        if answer.is_err() || answer == Ok(0) && !piece.is_empty() {
            self.link.write_faults = self.link.write_faults.saturating_add(1);
        }
        answer
    }

    /// A read itself waits.
    fn wait(&mut self) -> Readiness
        ensures same { self.new ≡ self.old }
    {
        Readiness::Ready
    }

    fn allow_reuse(&mut self) {
        self.is_reusable = true;
    }

    /// A stream that may serve another exchange stays as it is.
    fn shut(&mut self) {
        if self.is_reusable {
            self.link.is_open = false;
        } else {
            self.link.shut();
        }
    }
}
