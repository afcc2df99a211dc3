// The loop: it owns the listening socket, and each client's socket that no worker has.

use crate::Outside;
use crate::client::{Client, News};
use crate::places::{Phase, Places};
use crate::remedies::{Remedy, remedy_for};
use crate::shared::{Edge, Handed};
use crate::stop_sign::StopSign;
use crate::telling::tell;
use access_log::AccessLog;
use libc::types::rlimit;
use libc::{RLIMIT_NOFILE, getrlimit};
use mio::event::Event;
use mio::net::{TcpListener, TcpStream};
use mio::{Events, Interest, Poll, Token, Waker};
use std::alloc::{AllocError, Global};
use std::collections::VecDeque;
use std::io::{self, ErrorKind, Read};
use std::net::{IpAddr, Shutdown, SocketAddr};
use std::sync::Arc;
use std::thread::{self, Threads};
use std::time::{Duration, Instant};
use units::Text;

/// The listening socket's number among the loop's sockets.
const LISTENER: Token = Token(usize::MAX);

/// The number of what wakes the loop.
const WAKER: Token = Token(usize::MAX - 1);

/// How many milliseconds pass at most from one look at all places to the next.
const LOOK_MILLIS: u64 = 250;

/// How many milliseconds are let pass where the system is short of something.
const PAUSE_MILLIS: u64 = 100;

/// How many milliseconds pass at least until it is told again how many connections couldn't be accepted.
const TELL_MILLIS: u64 = 60_000;

/// How many connections are accepted at most until others have their turn.
const MOST_ACCEPTED: u32 = 64;

/// How many milliseconds a connection may be idle, where at most half of the descriptors are used, at most nine tenths, or more.
const IDLE_MILLIS: [u64; 3] = [60_000, 5_000, 1_000];

/// How many bytes of requests that aren't whole are held at most, over all connections.
const MOST_GATHERED: u64 = 134_217_728;

/// How many milliseconds a connection is read on behind its last answer, and how many bytes.
const CLOSING_MILLIS: u64 = 1_000;

const CLOSING_BYTES: u64 = 2_097_152;

/// In how many milliseconds a client takes at least as many bytes of what waits for it.
const TAKING_MILLIS: u64 = 30_000;

const ROOM: usize = 65_536;

/// What the loop's thread owns.
#[derive(Drop)]
pub(crate) struct Turning<R: Outside> {
    rt: R,
    alloc: Global,
    edge: Arc<Edge, Global>,
    poll: Poll,
    /// None before it was given, and once no more connections are accepted.
    listener: Option<TcpListener>,
    /// Whether no more are accepted.
    is_closed: bool,
    places: Places,
    /// Milliseconds of the loop's clock.
    now: u64,
    /// When accepting goes on.
    resume: u64,
    /// Whether connections may wait at the listener.
    has_more: bool,
    is_short: bool,
    /// How often accept(2) failed, though later calls can go well.
    passed: u64,
    /// How often, when that was told last.
    told: u64,
    /// When it may be told again.
    tell_from: u64,
    /// Whether nobody asks for connections any more. What came back before that has come.
    is_retired: bool,
    /// When all places were looked at last.
    looked: u64,
    /// How many bytes are held at the places.
    gathered: u64,
    /// How many descriptors there are.
    most_open: u64,
    room: Vec<u8>,
    /// What this turn found ready.
    batch: VecDeque<Handed, Global>,
    back: Vec<Handed>,
}

// How many descriptors the process may have.
fn most_open() -> u64 {
    let mut limit = rlimit {
        rlim_cur: 1_024,
        rlim_max: 1_024,
    };
    getrlimit(RLIMIT_NOFILE, &mut limit);
    limit.rlim_cur
}

// The address of a client.
fn address_of(from: &SocketAddr) -> [u8; 4] {
    match from.ip() {
        IpAddr::V4(address) => address.octets(),
        IpAddr::V6(_) => [0; 4],
    }
}

// Says how many connections couldn't be accepted.
fn tell_count<R: Outside>(rt: &R, count: u64) -> Result<(), AllocError> {
    let line = format!(in rt.alloc();
        "calls of accept(2) that failed and were passed over, so far: {count}"
    )?;
    tell(rt, line.as_str());
    Ok(())
}

// Whether a client took less than 1,000 bytes a second of what waits, over 30 s. Where it took more these begin anew.
fn is_slow(client: &mut Client, mark: &mut u64, now: u64) -> bool {
    if now.saturating_sub(client.since) < TAKING_MILLIS {
        return false;
    }
    // The system tells of room only once a third of its own is free, which takes a slow client longer.
    if client.bring_out().is_err() {
        return true;
    }
    let untaken = client.untaken() as u64;
    let taken = mark.saturating_sub(untaken);
    client.since = now;
    *mark = untaken;
    taken < TAKING_MILLIS
}

impl<R: Outside> Turning<R> {
    /// A loop that has no connection yet.
    pub fn new(rt: R, edge: Arc<Edge, Global>, poll: Poll) -> Result<Turning<R>, AllocError> {
        let alloc = rt.alloc();
        Ok(Turning {
            rt,
            alloc,
            edge,
            poll,
            listener: None,
            is_closed: false,
            places: Places::new(alloc),
            now: 0,
            resume: 0,
            has_more: false,
            is_short: false,
            passed: 0,
            told: 0,
            tell_from: 0,
            is_retired: false,
            looked: 0,
            gathered: 0,
            most_open: most_open(),
            room: Vec::from_elem(alloc, 0u8, ROOM)?,
            batch: VecDeque::new(alloc),
            back: Vec::new(alloc),
        })
    }

    /// Goes on until no connection is left once the run is over, or a wait fails.
    pub fn run(&mut self, events: &mut Events<Global>) {
        let rt = self.rt;
        for _ in rt.forever() {
            if self.turn(events).is_err() {
                tell(&self.rt, "the run is to end: a call of the system's failed");
                self.edge.end(&self.rt, true);
                break;
            }
            if self.is_retired && self.places.are_left() {
                break;
            }
        }
        self.edge.finish(&self.rt);
    }

    // How many milliseconds a wait takes at most.
    fn patience(&self) -> u64 {
        if !self.edge.may_sleep(&self.rt) {
            0
        } else if self.has_more {
            self.resume.saturating_sub(self.now).min(LOOK_MILLIS)
        } else {
            LOOK_MILLIS
        }
    }

    // Waits until something comes, and does what is to be done then.
    fn turn(&mut self, events: &mut Events<Global>) -> io::Result<()> {
        let patience = Duration::from_millis(self.patience());
        if let Err(error) = self.poll.poll(events, Some(patience)) {
            // So it is where the process was stopped and goes on.
            return match error.kind() {
                ErrorKind::Interrupted => Ok(()),
                _ => Err(error),
            };
        }
        self.now = self.edge.now(&self.rt);
        self.is_retired = self.edge.is_retired();
        self.take_listener()?;
        self.settle_all();
        for event in events.iter() {
            self.meet(event);
        }
        self.accept_some();
        if !self.batch.is_empty() {
            self.edge.give(&self.rt, &mut self.batch);
        }
        if self.now >= self.looked.saturating_add(LOOK_MILLIS) {
            self.looked = self.now;
            self.look_over();
        }
        Ok(())
    }

    // Does what an event asks for.
    fn meet(&mut self, event: &Event) {
        let token = event.token();
        if token == LISTENER {
            self.has_more = true;
            return;
        }
        match self.places.phase(token.0) {
            Phase::Gathering => self.gather(token.0),
            Phase::Taking => self.bring_out(token.0),
            Phase::Closing => self.waste(token.0),
            Phase::Free | Phase::Away => {}
        }
    }

    // ---- accepting

    // Takes the listening socket, where it was given.
    fn take_listener(&mut self) -> io::Result<()> {
        if self.listener.is_some() || self.is_closed {
            return Ok(());
        }
        if let Some(mut listener) = self.edge.take_listener(&self.rt) {
            self.poll
                .registry()
                .register(&mut listener, LISTENER, Interest::READABLE)?;
            self.listener = Some(listener);
            self.has_more = true;
        }
        Ok(())
    }

    // Accepts who waits at the listener.
    fn accept_some(&mut self) {
        for turn in 0..MOST_ACCEPTED {
            if !self.has_more || self.now < self.resume || !self.accept_one() {
                break;
            }
        }
    }

    // Accepts one. Whether another may be accepted at once.
    fn accept_one(&mut self) -> bool {
        let Some(listener) = &self.listener else {
            self.has_more = false;
            return false;
        };
        match listener.accept() {
            Ok((stream, from)) => {
                self.tell_shortage(false);
                let _ = self.welcome(stream, address_of(&from));
                true
            }
            Err(error) => self.remedy(&error),
        }
    }

    // Does what an error of accept(2) asks for. Whether another may be accepted at once.
    fn remedy(&mut self, error: &io::Error) -> bool {
        match remedy_for(error) {
            Remedy::AskAgain => return true,
            Remedy::PassOver => {
                self.passed = self.passed.saturating_add(1);
                return true;
            }
            Remedy::Wait => self.has_more = false,
            Remedy::Pause => {
                self.passed = self.passed.saturating_add(1);
                self.tell_shortage(true);
                self.resume = self.now.saturating_add(PAUSE_MILLIS);
            }
            Remedy::GiveUp => {
                tell(
                    &self.rt,
                    "the run is to end: no connection can be accepted any more",
                );
                self.close_listener(true);
            }
        }
        false
    }

    // Says once that the system is short of something, and once that it isn't any more.
    fn tell_shortage(&mut self, is_short: bool) {
        if is_short && !self.is_short {
            tell(
                &self.rt,
                "no connection can be accepted: the system is short of descriptors or memory",
            );
        }
        if !is_short && self.is_short {
            tell(&self.rt, "connections are accepted again");
        }
        self.is_short = is_short;
    }

    // Says how many connections couldn't be accepted so far, at once and then once a minute at most.
    fn tell_passed(&mut self) {
        if self.passed > self.told && self.now >= self.tell_from {
            self.told = self.passed;
            self.tell_from = self.now.saturating_add(TELL_MILLIS);
            // There is nobody to tell where there is no memory for the line.
            let _ = tell_count(&self.rt, self.passed);
        }
    }

    // Accepts no more, since the run is to end or the system failed.
    fn close_listener(&mut self, has_failed: bool) {
        self.listener = None;
        self.is_closed = true;
        self.has_more = false;
        self.edge.end(&self.rt, has_failed);
    }

    // Gives a connection a place. One for which there is no room is closed.
    fn welcome(&mut self, stream: TcpStream, address: [u8; 4]) -> io::Result<()> {
        stream.set_nodelay(true)?;
        let index = self.places.free_place()?;
        let count = self.places.len();
        self.edge.reserve(&self.rt, count)?;
        self.back.reserve(count)?;
        let client = Client::new(self.alloc, stream, address, self.now);
        let mut client = Box::new(self.alloc, client)?;
        self.poll
            .registry()
            .register(&mut client.stream, Token(index), Interest::READABLE)?;
        self.places.fill(client);
        Ok(())
    }

    // ---- gathering

    // Reads what came over a connection, and gives it to a worker once it has a request.
    fn gather(&mut self, index: usize) {
        let Some(place) = self.places.get(index) else {
            return;
        };
        let Some(client) = &mut place.client else {
            return;
        };
        let before = client.held();
        let news = client.read_on(self.alloc, self.room.as_mut_slice(), self.now);
        self.gathered = self
            .gathered
            .saturating_add(client.held())
            .saturating_sub(before);
        match news {
            News::Ready => self.give(index),
            News::Nothing => self.keep_within(),
            News::More => {
                self.keep_within();
                // Asked anew, the system tells of what is there.
                self.await_news(index, Interest::READABLE);
            }
            News::Over => self.release(index),
        }
    }

    // Has a worker take a connection that has a request.
    fn give(&mut self, index: usize) {
        let Some(place) = self.places.get(index) else {
            return;
        };
        let Some(mut client) = place.client.take() else {
            return;
        };
        self.gathered = self.gathered.saturating_sub(client.held());
        let _ = self.poll.registry().deregister(&mut client.stream);
        self.places.set_away(index);
        let handed = Handed {
            index,
            client,
            goes_on: true,
        };
        if self.batch.push_back(handed).is_err() {
            self.places.release(index);
        }
    }

    // Ends the connections whose requests began first, until all that is gathered is within its limit.
    fn keep_within(&mut self) {
        for turn in 0..self.places.len() {
            if self.gathered <= MOST_GATHERED {
                break;
            }
            if let Some(index) = self.oldest_begun() {
                self.release(index);
            }
        }
    }

    // The place of the connection whose request began first of those that aren't whole.
    fn oldest_begun(&mut self) -> Option<usize> {
        let mut oldest: Option<(usize, u64)> = None;
        for index in 0..self.places.len() {
            if let Some(since) = self.begun(index) {
                if oldest.is_none_or(|(_, first)| since < first) {
                    oldest = Some((index, since));
                }
            }
        }
        oldest.map(|(index, _)| index)
    }

    // When the request began that is gathered at a place.
    fn begun(&mut self, index: usize) -> Option<u64> {
        let place = self.places.get(index)?;
        let client = place.client.as_ref()?;
        if place.phase == Phase::Gathering && client.held() > 0 {
            Some(client.since)
        } else {
            None
        }
    }

    // Ends a connection.
    fn release(&mut self, index: usize) {
        if let Some(place) = self.places.get(index) {
            if let Some(client) = &place.client {
                self.gathered = self.gathered.saturating_sub(client.held());
                self.edge.let_go(client.kept());
            }
        }
        self.places.release(index);
    }

    // ---- what workers give back

    // Takes back what workers are through with.
    fn settle_all(&mut self) {
        self.edge.take_back(&self.rt, &mut self.back);
        for turn in 0..self.back.len() {
            let Some(handed) = self.back.pop() else {
                break;
            };
            self.settle(handed);
        }
    }

    // Puts a connection back to its place. One over which no further request may come is closed; a request that has begun has its time
    // from now on.
    fn settle(&mut self, handed: Handed) {
        let Handed {
            index,
            mut client,
            goes_on,
        } = handed;
        client.tidy(self.alloc);
        client.since = self.now;
        self.gathered = self.gathered.saturating_add(client.held());
        let is_registered = self
            .poll
            .registry()
            .register(&mut client.stream, Token(index), Interest::READABLE)
            .is_ok();
        self.places.put_back(index, client, goes_on);
        if is_registered {
            self.bring_out(index);
        } else {
            self.release(index);
        }
    }

    // Sends what a client has yet to take. Once it has all, further requests may come, or the connection is closed.
    fn bring_out(&mut self, index: usize) {
        let since = self.now;
        let Some(place) = self.places.get(index) else {
            return;
        };
        let Some(client) = &mut place.client else {
            return;
        };
        if client.bring_out().is_err() {
            return self.release(index);
        }
        if client.untaken() == 0 {
            return self.go_on(index);
        }
        if place.phase != Phase::Taking {
            place.phase = Phase::Taking;
            place.mark = client.untaken() as u64;
            client.since = since;
            self.await_news(index, Interest::WRITABLE);
        }
    }

    // Has the system tell of a connection.
    fn await_news(&mut self, index: usize, interest: Interest) {
        let Some(place) = self.places.get(index) else {
            return;
        };
        let Some(client) = &mut place.client else {
            return;
        };
        let registry = self.poll.registry();
        if registry
            .reregister(&mut client.stream, Token(index), interest)
            .is_err()
        {
            self.release(index);
        }
    }

    // Has a connection over which all was taken wait for requests, or closes it.
    fn go_on(&mut self, index: usize) {
        let since = self.now;
        let alloc = self.alloc;
        let Some(place) = self.places.get(index) else {
            return;
        };
        let was_taking = place.phase == Phase::Taking;
        let goes_on = place.goes_on && !self.is_closed;
        let Some(client) = &mut place.client else {
            return;
        };
        self.edge.let_go(client.kept());
        client.forget_sent(alloc);
        place.phase = Phase::Gathering;
        if was_taking {
            client.since = since;
        }
        let is_answered = client.has_answered && !client.is_over();
        let has_request = goes_on && client.has_request(alloc);
        match (goes_on, has_request, was_taking, is_answered) {
            (true, true, _, _) => self.give(index),
            // The system told of room for what waited.
            (true, false, true, _) => self.await_news(index, Interest::READABLE),
            (true, false, false, _) => {}
            (false, _, _, true) => self.begin_closing(index),
            (false, _, _, false) => self.release(index),
        }
    }

    // Sends no more over a connection, whose last answer may still be under way. Where a socket is closed with bytes that nobody read,
    // the system resets the connection, and the client may lose that answer (RFC 9112, section 9.6).
    fn begin_closing(&mut self, index: usize) {
        let since = self.now;
        let Some(place) = self.places.get(index) else {
            return;
        };
        let Some(client) = &mut place.client else {
            return;
        };
        place.phase = Phase::Closing;
        place.mark = 0;
        client.since = since;
        if client.stream.shutdown(Shutdown::Write).is_err() {
            self.release(index);
        } else {
            self.await_news(index, Interest::READABLE);
        }
    }

    // Reads on over a connection that is closing, and throws away what comes.
    fn waste(&mut self, index: usize) {
        let Some(place) = self.places.get(index) else {
            return;
        };
        let Some(client) = &mut place.client else {
            return;
        };
        for turn in 0..CLOSING_BYTES {
            match client.stream.read(self.room.as_mut_slice()) {
                Ok(count) => {
                    place.mark = place.mark.saturating_add(count as u64);
                    if count == 0 || place.mark >= CLOSING_BYTES {
                        break;
                    }
                }
                Err(error) => {
                    if error.kind() == ErrorKind::WouldBlock {
                        return;
                    }
                    break;
                }
            }
        }
        self.release(index);
    }

    // ---- time

    // How many milliseconds a connection may be idle.
    fn idle_millis(&self) -> u64 {
        let [long, short, shortest] = IDLE_MILLIS;
        let taken = self.places.taken;
        if taken.saturating_mul(2) <= self.most_open {
            long
        } else if taken.saturating_mul(10) <= self.most_open.saturating_mul(9) {
            short
        } else {
            shortest
        }
    }

    // Why no more connections are to be accepted: what is said of it, if it is to be said.
    fn reason_to_end(&self) -> Option<&'static str> {
        if self.is_retired {
            Some("")
        } else if self.edge.is_mute() {
            Some("the run is to end: requests aren't answered any more")
        } else {
            self.edge.stop.reason()
        }
    }

    // Accepts no more where the run is to end, or nobody asks for connections any more.
    fn look_for_end(&mut self) {
        if let Some(reason) = self.reason_to_end() {
            if !reason.is_empty() {
                tell(&self.rt, reason);
            }
            self.close_listener(false);
        }
    }

    // Ends what is over its time, and all that is idle once the run is to end.
    fn look_over(&mut self) {
        if !self.is_closed {
            self.look_for_end();
        }
        self.tell_passed();
        let idle_millis = self.idle_millis();
        for index in 0..self.places.len() {
            if self.is_late(index, idle_millis) {
                self.release(index);
            }
        }
    }

    // Whether a connection is over its time.
    fn is_late(&mut self, index: usize, idle_millis: u64) -> bool {
        let (now, is_closed) = (self.now, self.is_closed);
        let Some(place) = self.places.get(index) else {
            return false;
        };
        let Some(client) = &mut place.client else {
            return false;
        };
        match place.phase {
            Phase::Gathering => is_closed || client.is_late(now, idle_millis),
            Phase::Taking => is_slow(client, &mut place.mark, now),
            Phase::Closing => now.saturating_sub(client.since) >= CLOSING_MILLIS,
            Phase::Free | Phase::Away => false,
        }
    }
}

/// How many events the loop takes from the system at once.
const MOST_EVENTS: usize = 1_024;

/// A loop in a thread of its own, which waits for a listening socket; the request to end the run is looked for from this moment on.
/// Workers add a line of each exchange to the log, if one is kept.
pub fn begin_loop<R: Outside + Threads + Send + 'static>(
    rt: &R,
    stop_file: Option<Text>,
    log: Option<Arc<AccessLog, Global>>,
) -> io::Result<Arc<Edge, Global>> {
    let alloc = rt.alloc();
    let poll = Poll::new(rt)?;
    let waker = Waker::new(poll.registry(), WAKER)?;
    let start = Instant::now(rt)?;
    let stop = StopSign::new(stop_file, start);
    let edge = Arc::new(alloc, Edge::new(alloc, waker, start, stop, log))?;
    let mut turning = Turning::new(*rt, Arc::try_clone(&edge)?, poll)?;
    let mut events = Events::with_capacity(alloc, MOST_EVENTS)?;
    match thread::spawn(rt, move || turning.run(&mut events)) {
        Ok(_) => Ok(edge),
        Err(_) => Err(io::Error::from(ErrorKind::OutOfMemory)),
    }
}
