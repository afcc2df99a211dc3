// A client's connection. It is owned by the loop or by one worker's link, never by both.
ghost use Rattle.std.specs.Prelude.{◌≤◌, length};
ghost use Rattle.std.specs.Io.{WritesAtMost};

use crate::client_pace::request_millis;
use message_reader::{Extent, Intake, RequestGauge};
use mio::net::TcpStream;
use std::alloc::{AllocError, Global};
use std::io::{ErrorKind, Read, Write};
use wire::Failed;

/// How often what came is read at most until others have their turn.
const MOST_READS: u32 = 64;

/// How often what waits is sent at most until others have their turn.
const MOST_WRITES: u32 = 1_024;

/// What a client that waits for leave to send its request's body is sent (RFC 9110, section 15.2.1).
const LEAVE: &[u8] = b"HTTP/1.1 100 Continue\r\n\r\n";

/// What a read of all that came led to.
#[derive(Clone, Copy, Debug, PartialEq, Eq)]
pub(crate) enum News {
    /// A worker may have something: a request that is whole, or what will never be one.
    Ready,
    /// No request is whole yet.
    Nothing,
    /// No request is whole yet, and more may be there to read.
    More,
    /// The client has ended the connection, or the system has.
    Over,
}

/// A connection, what came over it and isn't used yet, and how far the request goes that stands in front.
#[derive(Drop)]
pub(crate) struct Client {
    pub stream: TcpStream,
    pub address: [u8; 4],
    pub input: Intake,
    gauge: RequestGauge,
    /// How many bytes a worker may have.
    ready: usize,
    /// Whether it got none of them yet.
    is_fresh: bool,
    /// When the first bytes of a request came that isn't whole, or the connection got idle, by the loop's clock.
    pub since: u64,
    /// How many requests workers got.
    pub requests: u64,
    /// Whether an answer may still be under way.
    pub has_answered: bool,
    /// What is to be sent behind what the system took, up to `sent`.
    output: Vec<u8>,
    sent: usize,
    /// Whether the client sends nothing more.
    is_over: bool,
}

impl Client {
    pub fn new(alloc: Global, stream: TcpStream, address: [u8; 4], now: u64) -> Client {
        Client {
            stream,
            address,
            input: Intake::new(alloc),
            gauge: RequestGauge::new(),
            ready: 0,
            is_fresh: false,
            since: now,
            requests: 0,
            has_answered: false,
            output: Vec::new(alloc),
            sent: 0,
            is_over: false,
        }
    }

    /// Whether the client sends nothing more.
    pub fn is_over(&self) -> bool {
        self.is_over
    }

    /// How many bytes came that weren't used.
    pub fn held(&self) -> u64 {
        self.input.bytes().len() as u64
    }

    // So many bytes are for a worker.
    fn make_ready(&mut self, count: usize) {
        self.ready = count;
        self.is_fresh = true;
        self.gauge = RequestGauge::new();
        self.requests = self.requests.saturating_add(1);
    }

    /// Whether a worker may have something: a request that is whole, or what will never be one.
    pub fn has_request(&mut self, alloc: Global) -> bool {
        let bytes = self.input.bytes();
        if self.ready > 0 || bytes.is_empty() {
            return self.ready > 0;
        }
        let (all, is_over) = (bytes.len(), self.is_over);
        match self.gauge.measure(alloc, bytes) {
            Extent::Whole(count) => self.make_ready(count),
            Extent::Refused => self.make_ready(all),
            Extent::Part => {
                if is_over {
                    self.make_ready(all);
                }
            }
        }
        self.ready > 0
    }

    /// Whether a worker hasn't read all that it may have.
    pub fn is_ready(&self) -> bool {
        self.ready > 0
    }

    /// The bytes that a worker may have, of which it got none yet.
    pub fn fresh(&self) -> Option<&[u8]> {
        if self.is_fresh {
            self.input.bytes().get(..self.ready)
        } else {
            None
        }
    }

    /// Gives a worker bytes of the request, at most as many as the room has.
    pub fn give(&mut self, room: &mut [u8]) -> usize
        ensures bound { result ≤ length room.new }
    {
        let bytes = self.input.bytes();
        let count = self.ready.min(bytes.len()).min(room.len());
        room[..count].copy_from_slice(&bytes[..count]);
        self.input.skip(count);
        self.is_fresh = false;
        self.ready = self.ready.saturating_sub(count);
        count
    }

    // Holds what came. None where there is no memory for it.
    fn hold(&mut self, alloc: Global, piece: &[u8], now: u64) -> Option<News> {
        if self.input.bytes().is_empty() {
            self.since = now;
        }
        self.input.add(piece).ok()?;
        if self.has_request(alloc) {
            Some(News::Ready)
        } else {
            Some(News::Nothing)
        }
    }

    // What the client's end leads to: a request that isn't whole never will be.
    fn end(&mut self, alloc: Global) -> News {
        self.is_over = true;
        if self.has_request(alloc) {
            News::Ready
        } else {
            News::Over
        }
    }

    // A read. None where more may be there.
    fn read_once(&mut self, alloc: Global, room: &mut [u8], now: u64) -> Option<News> {
        match self.stream.read(room) {
            Ok(0) => Some(self.end(alloc)),
            Ok(count) => {
                let piece = room.get(..count).unwrap_or_default();
                match self.hold(alloc, piece, now) {
                    Some(News::Nothing) => None,
                    Some(news) => Some(news),
                    None => Some(News::Over),
                }
            }
            Err(error) => match error.kind() {
                ErrorKind::WouldBlock => Some(News::Nothing),
                ErrorKind::Interrupted => None,
                _ => Some(News::Over),
            },
        }
    }

    /// Reads what came, as long as others can wait, until a request is whole. A client that waits for leave to send a body gets it.
    pub fn read_on(&mut self, alloc: Global, room: &mut [u8], now: u64) -> News {
        for turn in 0..MOST_READS {
            if let Some(news) = self.read_once(alloc, room, now) {
                if news == News::Nothing && self.gauge.takes_leave() {
                    let _ = self.stream.write(LEAVE);
                }
                return news;
            }
        }
        News::More
    }

    /// How many bytes wait until the client takes them.
    pub fn untaken(&self) -> usize {
        self.output.len().saturating_sub(self.sent)
    }

    /// How many bytes are kept of which some wait.
    pub fn kept(&self) -> u64 {
        self.output.len() as u64
    }

    /// Writes as much as the system takes at once.
    pub fn write_now(&mut self, piece: &[u8]) -> Result<usize, Failed>
        ensures bound { WritesAtMost result piece.now }
    {
        match self.stream.write(piece) {
            Ok(count) => {
                self.has_answered = true;
                Ok(count)
            }
            Err(error) => match error.kind() {
                ErrorKind::WouldBlock | ErrorKind::Interrupted => Ok(0),
                _ => Err(Failed),
            },
        }
    }

    /// Keeps bytes that are to be sent behind those that wait.
    pub fn put_off(&mut self, rest: &[u8]) -> Result<(), AllocError> {
        self.output.extend_from_slice(rest)
    }

    // Sends bytes that wait. None where the system takes no more for now, or none is left.
    fn bring_once(&mut self) -> Option<Result<(), Failed>> {
        let rest = self.output.get(self.sent..).unwrap_or_default();
        if rest.is_empty() {
            return None;
        }
        match self.stream.write(rest) {
            Ok(count) => {
                self.sent = self.sent.saturating_add(count);
                Some(Ok(()))
            }
            Err(error) => match error.kind() {
                ErrorKind::WouldBlock => None,
                ErrorKind::Interrupted => Some(Ok(())),
                _ => Some(Err(Failed)),
            },
        }
    }

    /// Sends what waits, as much as the system takes.
    pub fn bring_out(&mut self) -> Result<(), Failed> {
        for turn in 0..MOST_WRITES {
            match self.bring_once() {
                Some(answer) => answer?,
                None => break,
            }
        }
        Ok(())
    }

    /// The memory of bytes that were all sent goes back.
    pub fn forget_sent(&mut self, alloc: Global) {
        self.output = Vec::new(alloc);
        self.sent = 0;
    }

    /// Whether it is idle for longer than so many milliseconds, or a request of which something came isn't whole in its time.
    pub fn is_late(&self, now: u64, idle_millis: u64) -> bool {
        let held = self.held();
        let limit = if held == 0 {
            idle_millis
        } else {
            request_millis(held)
        };
        now.saturating_sub(self.since) >= limit
    }

    /// The memory of bytes that were all used goes back.
    pub fn tidy(&mut self, alloc: Global) {
        if self.input.bytes().is_empty() {
            self.input = Intake::new(alloc);
        }
    }
}
