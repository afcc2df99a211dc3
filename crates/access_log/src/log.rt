// Lines on their way to a log's file.
ghost use Rattle.std.specs.Prelude.{◌≡◌, ◌+◌, ◌-◌, ◌^◌, ◌++◌, ◌⊎◌, min};

use crate::{Exchange, write_line, write_moment};
use std::alloc::Global;
use std::rt::Clock;
use std::sync::{Condvar, Mutex, Wait};
use std::time::{Duration, SystemTime, UNIX_EPOCH};
use std::{io, mem};

/// How many bytes of lines wait for the file at most, before the last of them.
const MOST_WAITING: usize = 4_194_304;

/// How many milliseconds lines wait at most until they are written.
const WAIT_MILLIS: u64 = 1_000;

/// How many milliseconds a run waits at most at its end until all is written.
const FINISH_MILLIS: u64 = 5_000;

/// Lines that wait to be written, and how many had no room.
#[derive(Drop)]
pub(crate) struct Batch {
    pub bytes: Vec<u8>,
    pub lost: u64,
}

impl Batch {
    fn new(alloc: Global) -> Batch {
        Batch {
            bytes: Vec::new(alloc),
            lost: 0,
        }
    }

    // Counts a line that isn't there.
    fn lose(&mut self)
        ensures bytes { self.new.bytes ≡ self.old.bytes }
        ensures lost { self.new.lost ≡ min (self.old.lost + 1) (2 ^ 64 - 1) }
    {
        self.lost = self.lost.saturating_add(1);
    }

    // Adds a line. One for which there is no room is lost.
    fn add(&mut self, line: &[u8])
        ensures { ((self.new.bytes.items ≡ self.old.bytes.items ++ line.now) × (self.new.lost ≡ self.old.lost))
            ⊎ ((self.new.bytes.items ≡ self.old.bytes.items) × (self.new.lost ≡ min (self.old.lost + 1) (2 ^ 64 - 1))) }
    {
        let has_room = self.bytes.len() < MOST_WAITING;
        if !has_room || self.bytes.extend_from_slice(line).is_err() {
            self.lose();
        }
    }
}

#[derive(Drop)]
struct Waiting {
    batch: Batch,
    /// Whether no more lines are to come.
    is_closed: bool,
    /// Whether all were written since.
    is_done: bool,
}

/// A log that any thread may add lines to. A thread of its own writes them to a file.
#[derive(Drop)]
pub struct AccessLog {
    waiting: Mutex<Waiting>,
    bell: Condvar,
}

// The line of an exchange that is over now.
fn line_now<R: Clock + AllocGlobal>(rt: &R, exchange: &Exchange) -> io::Result<Vec<u8>> {
    let seconds = match SystemTime::now(rt)?.duration_since(UNIX_EPOCH) {
        Ok(since) => since.as_secs(),
        Err(_) => 0,
    };
    let moment = write_moment(rt.alloc(), seconds)?;
    Ok(write_line(rt.alloc(), exchange, moment.bytes())?)
}

impl AccessLog {
    pub(crate) fn new(alloc: Global) -> AccessLog {
        let waiting = Waiting {
            batch: Batch::new(alloc),
            is_closed: false,
            is_done: false,
        };
        AccessLog {
            waiting: Mutex::new(waiting),
            bell: Condvar::new(),
        }
    }

    /// Adds the line of an exchange that is over now. It is lost where 4 MiB wait already or there is no memory for it.
    pub fn add<R: Wait + Clock + AllocGlobal>(&self, rt: &R, exchange: &Exchange) {
        let line = line_now(rt, exchange);
        let mut waiting = self.waiting.lock(rt);
        match line {
            Ok(line) => waiting.batch.add(line.as_slice()),
            Err(_) => waiting.batch.lose(),
        }
    }

    /// What came in a second, or until no more is to come; and whether no more is.
    pub(crate) fn next<R: Wait + Clock>(&self, rt: &R, alloc: Global) -> (Batch, bool) {
        let limit = Duration::from_millis(WAIT_MILLIS);
        let waiting = self.waiting.lock(rt);
        let (mut waiting, _) = self
            .bell
            .wait_timeout_while(rt, waiting, limit, |waiting| !waiting.is_closed);
        let batch = mem::replace(&mut waiting.batch, Batch::new(alloc));
        (batch, waiting.is_closed)
    }

    /// Says that all was written.
    pub(crate) fn finish<R: Wait>(&self, rt: &R) {
        self.waiting.lock(rt).is_done = true;
        self.bell.notify_all();
    }

    /// Says that no more lines are to come, and waits until all are written, for five seconds at most.
    pub fn close<R: Wait + Clock>(&self, rt: &R) {
        let mut waiting = self.waiting.lock(rt);
        waiting.is_closed = true;
        self.bell.notify_all();
        let limit = Duration::from_millis(FINISH_MILLIS);
        let _ = self
            .bell
            .wait_timeout_while(rt, waiting, limit, |waiting| !waiting.is_done);
    }
}
