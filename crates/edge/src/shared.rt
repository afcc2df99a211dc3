// What the loop and the workers share.

use crate::client::Client;
use crate::stop_sign::StopSign;
use access_log::AccessLog;
use mio::Waker;
use mio::net::TcpListener;
use std::alloc::{AllocError, Global};
use std::collections::VecDeque;
use std::mem;
use std::rt::Clock;
use std::sync::atomic::{AtomicBool, AtomicU64, Ordering};
use std::sync::{Arc, Condvar, Mutex, Wait};
use std::time::{Duration, Instant};

/// How many milliseconds a worker waits at most for a connection.
const WAIT_MILLIS: u64 = 250;

/// How many milliseconds a run waits at most at its end until all that was written is brought out.
const FINISH_MILLIS: u64 = 30_000;

/// How many bytes wait at most until clients take them, over all connections.
const MOST_HELD: u64 = 536_870_912;

/// How many links in a row end without an answer at most: more do where the server can't answer any more, as with a full history.
const MOST_UNANSWERED: u64 = 1_000;

/// A connection that goes from the loop to a worker, or back.
#[derive(Drop)]
pub(crate) struct Handed {
    /// The number of its place.
    pub index: usize,
    pub client: Box<Client>,
    /// Whether further requests may come over it.
    pub goes_on: bool,
}

/// What waits for workers, and whether more will.
#[derive(Drop)]
pub(crate) struct Queue {
    ready: VecDeque<Handed, Global>,
    /// Whether the loop gives nothing more.
    has_ended: bool,
    /// Whether that is since a call of the system failed.
    has_failed: bool,
    /// Whether the loop is through with all connections.
    is_done: bool,
}

/// What a worker gets.
#[derive(Drop)]
pub(crate) enum Next {
    Came(Handed),
    NobodyYet,
    End,
    Failed,
}

/// What the loop and the workers share.
#[derive(Drop)]
pub struct Edge {
    queue: Mutex<Queue>,
    bell: Condvar,
    back: Mutex<Vec<Handed>>,
    /// The listening socket, until the loop has it.
    entry: Mutex<Option<TcpListener>>,
    waker: Waker,
    /// Whether the loop has to be woken to see what came back.
    is_asleep: AtomicBool,
    /// How many connections wait for workers.
    queued: AtomicU64,
    /// How many workers wait for connections.
    waiting: AtomicU64,
    /// How many bytes wait until clients take them, over all connections.
    held: AtomicU64,
    /// Whether nobody asks for connections any more.
    is_retired: AtomicBool,
    /// How many links in a row ended without an answer, though nothing failed.
    unanswered: AtomicU64,
    start: Instant,
    pub(crate) stop: StopSign,
    /// None where no log is kept.
    pub(crate) log: Option<Arc<AccessLog, Global>>,
}

impl Queue {
    // The next connection, or what is known where there is none.
    fn next(&mut self) -> Next {
        match self.ready.pop_front() {
            Some(handed) => Next::Came(handed),
            None if self.has_failed => Next::Failed,
            None if self.has_ended => Next::End,
            None => Next::NobodyYet,
        }
    }

    // Whether there is nothing to say yet.
    fn is_quiet(&self) -> bool {
        self.ready.is_empty() && !self.has_ended
    }
}

impl Edge {
    pub(crate) fn new(
        alloc: Global,
        waker: Waker,
        start: Instant,
        stop: StopSign,
        log: Option<Arc<AccessLog, Global>>,
    ) -> Edge {
        let queue = Queue {
            ready: VecDeque::new(alloc),
            has_ended: false,
            has_failed: false,
            is_done: false,
        };
        Edge {
            queue: Mutex::new(queue),
            bell: Condvar::new(),
            back: Mutex::new(Vec::new(alloc)),
            entry: Mutex::new(None),
            waker,
            is_asleep: AtomicBool::new(false),
            queued: AtomicU64::new(0),
            waiting: AtomicU64::new(0),
            held: AtomicU64::new(0),
            is_retired: AtomicBool::new(false),
            unanswered: AtomicU64::new(0),
            start,
            stop,
            log,
        }
    }

    /// How many milliseconds passed since the beginning.
    pub(crate) fn now<R: Clock>(&self, rt: &R) -> u64 {
        match self.start.elapsed(rt) {
            Ok(spent) => u64::try_from(spent.as_millis()).unwrap_or(u64::MAX),
            Err(_) => 0,
        }
    }

    /// Gives the loop the listening socket.
    pub fn open<R: Wait>(&self, rt: &R, listener: TcpListener) {
        *self.entry.lock(rt) = Some(listener);
        let _ = self.waker.wake();
    }

    /// The listening socket, where it was given and nobody has it.
    pub(crate) fn take_listener<R: Wait>(&self, rt: &R) -> Option<TcpListener> {
        self.entry.lock(rt).take()
    }

    /// Whether more connections wait for workers than workers for connections.
    pub(crate) fn is_short(&self) -> bool {
        self.queued.load(Ordering::SeqCst) > self.waiting.load(Ordering::SeqCst)
    }

    /// Gives workers what is ready. Where there is no memory it stays.
    pub(crate) fn give<R: Wait>(&self, rt: &R, batch: &mut VecDeque<Handed, Global>) {
        let count = batch.len() as u64;
        let mut queue = self.queue.lock(rt);
        if queue.ready.append(batch).is_err() {
            return;
        }
        drop(queue);
        self.queued.fetch_add(count, Ordering::SeqCst);
        for turn in 0..count.min(self.waiting.load(Ordering::SeqCst)) {
            self.bell.notify_one();
        }
    }

    /// Says that the loop gives nothing more, and whether that is since the system failed.
    pub(crate) fn end<R: Wait>(&self, rt: &R, has_failed: bool) {
        let mut queue = self.queue.lock(rt);
        queue.has_ended = true;
        queue.has_failed = has_failed;
        drop(queue);
        self.bell.notify_all();
    }

    /// Says that the loop is through.
    pub(crate) fn finish<R: Wait>(&self, rt: &R) {
        self.queue.lock(rt).is_done = true;
        self.bell.notify_all();
    }

    /// The next connection, if one comes in a quarter of a second.
    pub(crate) fn next<R: Wait + Clock>(&self, rt: &R) -> Next {
        let mut queue = self.queue.lock(rt);
        if queue.is_quiet() {
            self.waiting.fetch_add(1, Ordering::SeqCst);
            let limit = Duration::from_millis(WAIT_MILLIS);
            let (guard, _) = self
                .bell
                .wait_timeout_while(rt, queue, limit, |queue| queue.is_quiet());
            queue = guard;
            self.waiting.fetch_sub(1, Ordering::SeqCst);
        }
        let next = queue.next();
        if let Next::Came(_) = &next {
            self.queued.fetch_sub(1, Ordering::SeqCst);
        }
        next
    }

    /// Says that nobody asks for connections any more, and waits until the loop is through, for a bounded time.
    pub(crate) fn retire<R: Wait + Clock>(&self, rt: &R) {
        self.is_retired.store(true, Ordering::SeqCst);
        let _ = self.waker.wake();
        let queue = self.queue.lock(rt);
        let limit = Duration::from_millis(FINISH_MILLIS);
        let _ = self
            .bell
            .wait_timeout_while(rt, queue, limit, |queue| !queue.is_done);
    }

    pub(crate) fn is_retired(&self) -> bool {
        self.is_retired.load(Ordering::SeqCst)
    }

    /// Whether so many bytes more may wait. Then they are counted.
    pub(crate) fn hold(&self, count: u64) -> bool {
        let before = self.held.fetch_add(count, Ordering::SeqCst);
        let is_within = before.saturating_add(count) <= MOST_HELD;
        if !is_within {
            self.let_go(count);
        }
        is_within
    }

    /// So many bytes wait no more.
    pub(crate) fn let_go(&self, count: u64) {
        self.held.fetch_sub(count, Ordering::SeqCst);
    }

    /// Counts a link that had a request and ended, by whether it was answered.
    pub(crate) fn count_end(&self, is_answered: bool) {
        if is_answered {
            self.unanswered.store(0, Ordering::SeqCst);
        } else {
            self.unanswered.fetch_add(1, Ordering::SeqCst);
        }
    }

    /// Whether requests aren't answered any more.
    pub(crate) fn is_mute(&self) -> bool {
        self.unanswered.load(Ordering::SeqCst) >= MOST_UNANSWERED
    }

    /// Makes room for so many connections that come back.
    pub(crate) fn reserve<R: Wait>(&self, rt: &R, count: usize) -> Result<(), AllocError> {
        self.back.lock(rt).reserve(count)
    }

    /// Gives the loop a connection back.
    pub(crate) fn hand_back<R: Wait>(&self, rt: &R, handed: Handed) {
        let _ = self.back.lock(rt).push(handed);
        if self.is_asleep.swap(false, Ordering::SeqCst) {
            let _ = self.waker.wake();
        }
    }

    /// Says that the loop goes to sleep, and whether it may: nothing came back that it hasn't seen.
    pub(crate) fn may_sleep<R: Wait>(&self, rt: &R) -> bool {
        self.is_asleep.store(true, Ordering::SeqCst);
        self.back.lock(rt).is_empty()
    }

    /// Says that the loop is awake, and exchanges what came back for a list that is empty.
    pub(crate) fn take_back<R: Wait>(&self, rt: &R, list: &mut Vec<Handed>) {
        self.is_asleep.store(false, Ordering::SeqCst);
        mem::swap(&mut *self.back.lock(rt), list);
    }
}
