// A connection in a worker's hands.
ghost use Rattle.std.specs.Prelude.{IfSome};
ghost use Rattle.std.specs.Io.{ReadsAtMost, WritesAtMost};

use crate::Outside;
use crate::client::{Client, News};
use crate::client_pace::Taking;
use crate::noting::Noting;
use crate::shared::{Edge, Handed};
use crate::waiting::{has_news, has_room};
use std::alloc::Global;
use std::os::fd::AsRawFd;
use std::rt::Files;
use std::sync::Arc;
use wire::Failed;

/// How many milliseconds may pass between two requests of a connection that a worker keeps.
const IDLE_MILLIS: u64 = 5_000;

/// How many milliseconds a worker waits at once for the next request on a connection that it keeps, and on one that the loop takes
/// back.
const KEPT_MILLIS: u16 = 20;

const LENT_MILLIS: u16 = 1;

/// How many calls of the system's a write makes at most, each behind a wait of 5 s at most.
const WRITE_CALLS: u64 = 6;

const WRITE_MILLIS: u16 = 5_000;

/// Behind how many requests a connection ends.
const MAX_REQUESTS: u64 = 10_000;

const ROOM: usize = 8_192;

/// A connection that a worker has, until it was ended.
#[derive(Drop)]
pub(crate) struct Holding<R: Outside> {
    rt: R,
    edge: Arc<Edge, Global>,
    /// The number of its place in the loop.
    index: usize,
    /// None once it was ended.
    client: Option<Box<Client>>,
    /// Whether it ends between two requests, and the loop goes on with its connection.
    is_stretch: bool,
    taking: Taking,
    noting: Noting,
    /// How many milliseconds were waited since the last write.
    waited: u64,
    /// Whether a read gives the end, since no further request is to come.
    is_over: bool,
    /// Whether a request of which something came isn't whole in its time.
    is_late: bool,
    /// Whether the loop is to go on with its connection.
    goes_on: bool,
    /// Whether something was written.
    is_answered: bool,
}

// A write of the system's, whose bytes are counted, or the time of a wait until it may take some. None behind a wait.
fn write_once<R: Outside>(
    rt: &R,
    edge: &Edge,
    client: &mut Client,
    taking: &mut Taking,
    piece: &[u8],
) -> Option<Result<usize, Failed>>
    ensures bound { IfSome result (λ answer. WritesAtMost answer piece.now) }
{
    match client.write_now(piece) {
        Ok(0) => {
            let start = edge.now(rt);
            has_room(client.stream.as_raw_fd(), WRITE_MILLIS);
            taking.add(edge.now(rt).saturating_sub(start), 0);
            None
        }
        Ok(count) => {
            taking.add(0, count as u64);
            Some(Ok(count))
        }
        Err(fault) => Some(Err(fault)),
    }
}

// A write within its time, where the client has taken enough of what was written before.
fn write_in_time<R: Outside>(
    rt: &R,
    edge: &Edge,
    client: &mut Client,
    taking: &mut Taking,
    piece: &[u8],
) -> Result<usize, Failed>
    ensures bound { WritesAtMost result piece.now }
{
    if piece.is_empty() {
        return Ok(0);
    }
    if taking.is_slow() {
        return Err(Failed);
    }
    for turn in 0..WRITE_CALLS {
        if let Some(answer) = write_once(rt, edge, client, taking, piece) {
            return answer;
        }
    }
    Err(Failed)
}

impl<R: Outside> Holding<R> {
    /// What the loop gave.
    pub fn new(rt: R, edge: Arc<Edge, Global>, handed: Handed, is_stretch: bool) -> Holding<R> {
        let Handed { index, client, .. } = handed;
        Holding {
            rt,
            edge,
            index,
            client: Some(client),
            is_stretch,
            taking: Taking::new(),
            noting: Noting::new(),
            waited: 0,
            is_over: false,
            is_late: false,
            goes_on: false,
            is_answered: false,
        }
    }

    // Notes a request of which nothing was given yet, where a log is kept.
    fn note_request(&mut self) {
        if let (Some(client), true) = (&self.client, self.edge.log.is_some()) {
            if let Some(request) = client.fresh() {
                self.noting
                    .begin(self.rt.alloc(), client.address, request, client.since);
            }
        }
    }

    // Notes what was sent.
    fn note_sent(&mut self, piece: &[u8], answer: Result<usize, Failed>) {
        if let (Ok(count), true) = (answer, self.edge.log.is_some()) {
            let now = self.edge.now(&self.rt);
            self.noting.add(self.rt.alloc(), piece, count, now);
        }
    }

    // Adds the exchange that is over to the log.
    fn log_exchange(&mut self) {
        if let (Some(log), Some(exchange)) = (&self.edge.log, self.noting.end()) {
            log.add(&self.rt, &exchange);
        }
    }

    /// Gives bytes of a request, or none where no further one is to come.
    pub fn read(&mut self, into: &mut [u8]) -> Result<usize, Failed>
        ensures bound { ReadsAtMost result into.new }
    {
        self.note_request();
        let client = self.client.as_mut().ok_or(Failed)?;
        if self.is_late {
            return Err(Failed);
        }
        Ok(client.give(into))
    }

    // A write that takes the whole piece: what the system doesn't take at once waits, and the loop brings it out.
    fn put(&mut self, piece: &[u8]) -> Result<usize, Failed>
        ensures bound { WritesAtMost result piece.now }
    {
        let client = self.client.as_mut().ok_or(Failed)?;
        let mut taken: usize = 0;
        if client.untaken() == 0 {
            taken = client.write_now(piece)?;
        }
        let rest = piece.get(taken..).unwrap_or_default();
        if rest.is_empty() {
            return Ok(piece.len());
        }
        let count = rest.len() as u64;
        if !self.edge.hold(count) {
            return Err(Failed);
        }
        if client.put_off(rest).is_err() {
            self.edge.let_go(count);
            return Err(Failed);
        }
        Ok(piece.len())
    }

    // A write that waits until the client takes something.
    fn write_waiting(&mut self, piece: &[u8]) -> Result<usize, Failed>
        ensures bound { WritesAtMost result piece.now }
    {
        let client = self.client.as_mut().ok_or(Failed)?;
        // What came behind the request that is answered has its time from now on.
        client.since = self.edge.now(&self.rt);
        write_in_time(&self.rt, &self.edge, client, &mut self.taking, piece)
    }

    /// Takes a piece of a response.
    pub fn write(&mut self, piece: &[u8]) -> Result<usize, Failed>
        ensures bound { WritesAtMost result piece.now }
    {
        self.waited = 0;
        self.is_answered = true;
        let answer = if self.is_stretch {
            self.put(piece)
        } else {
            self.write_waiting(piece)
        };
        self.note_sent(piece, answer);
        answer
    }

    // Has a read give the end, so that it answers at once; the loop may go on with the connection.
    fn end(&mut self, goes_on: bool) -> bool {
        self.is_over = true;
        self.goes_on = goes_on;
        true
    }

    // What came over the connection since a request was answered. Whether a read answers at once.
    fn look(&mut self) -> bool {
        let now = self.edge.now(&self.rt);
        let alloc = self.rt.alloc();
        let Some(client) = &mut self.client else {
            return true;
        };
        match client.read_on(alloc, &mut [0u8; ROOM], now) {
            News::Ready => true,
            News::Over => self.end(false),
            News::Nothing | News::More => self.is_stretch && self.end(true),
        }
    }

    // Whether a request of which something came isn't whole in its time. Then a read answers at once: it fails.
    fn is_too_slow(&mut self) -> bool {
        let now = self.edge.now(&self.rt);
        self.is_late = match &self.client {
            Some(client) => client.is_late(now, u64::MAX),
            None => true,
        };
        self.is_late
    }

    // Waits for the next request for a while. Whether a read answers at once.
    fn linger(&mut self, is_idle: bool) -> bool {
        let millis = if self.is_stretch {
            LENT_MILLIS
        } else {
            KEPT_MILLIS
        };
        let Some(client) = &self.client else {
            return true;
        };
        if has_news(client.stream.as_raw_fd(), millis) {
            return self.look() || self.is_too_slow();
        }
        self.waited = self.waited.saturating_add(u64::from(millis));
        if self.is_stretch || is_idle && self.waited >= IDLE_MILLIS {
            return self.end(self.is_stretch);
        }
        self.is_too_slow()
    }

    /// Gives the loop the connection back, which goes on with it or ends it; and whether a read failed.
    pub fn give_back(&mut self, has_failed: bool) {
        self.log_exchange();
        if let Some(client) = self.client.take() {
            self.edge.count_end(self.is_answered || has_failed);
            let handed = Handed {
                index: self.index,
                client,
                goes_on: self.goes_on,
            };
            self.edge.hand_back(&self.rt, handed);
        }
    }
}

impl<R: Outside + Files> Holding<R> {
    // Whether a read answers at once, of a connection over which a further request may come.
    fn has_more(&mut self) -> bool {
        let alloc = self.rt.alloc();
        let Some(client) = &mut self.client else {
            return true;
        };
        let is_full = client.requests >= MAX_REQUESTS;
        if client.is_ready() || !is_full && client.has_request(alloc) {
            return true;
        }
        let (is_idle, has_untaken) = (client.held() == 0, client.untaken() > 0);
        let is_last = is_full || self.edge.stop.is_set(&self.rt);
        let is_wanted = self.edge.is_short() && (self.is_stretch || is_idle);
        if is_last || has_untaken || is_wanted {
            return self.end(self.is_stretch && !is_last);
        }
        self.linger(is_idle)
    }

    /// Whether a read answers at once. It is asked between two exchanges.
    pub fn is_ready(&mut self) -> bool {
        self.log_exchange();
        self.is_over || self.is_late || self.has_more()
    }
}
