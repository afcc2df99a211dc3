// Whether a run was asked to end.

use std::fs;
use std::rt::{Clock, Files};
use std::sync::atomic::{AtomicBool, AtomicU64, Ordering};
use std::time::Instant;
use units::Text;

/// How many milliseconds pass at least from one look to the next.
const LOOK_MILLIS: u64 = 250;

/// What the system tells of the process: among it the signals that are pending for it, as a number of 16 digits.
const PROCESS_FILE: &str = "/proc/self/status";

const PENDING: &str = "ShdPnd:";

/// Which of these digits has SIGTERM, the signal 15, as its bit of value 4.
const TERM_DIGIT: usize = 12;

/// The request to end a run, which stands once it was seen: a file is there, or SIGTERM came where it is blocked, so that it stays
/// pending.
#[derive(Drop)]
pub struct StopSign {
    file: Option<Text>,
    start: Instant,
    /// When it was looked last, in milliseconds from the start.
    looked: AtomicU64,
    is_seen: AtomicBool,
    /// Whether the signal was seen.
    is_signal: AtomicBool,
}

// Whether SIGTERM is among the pending signals.
fn has_term(status: &str) -> bool {
    for line in status.lines() {
        if let Some(signals) = line.strip_prefix(PENDING) {
            let digit = signals.trim().as_bytes().get(TERM_DIGIT);
            return matches!(digit, Some(b'4'..=b'7' | b'c'..=b'f'));
        }
    }
    false
}

fn is_term_pending<R: Files + AllocGlobal>(rt: &R) -> bool {
    match fs::read_to_string(rt, PROCESS_FILE) {
        Ok(status) => has_term(status.as_str()),
        Err(_) => false,
    }
}

impl StopSign {
    /// A sign that nobody has seen yet. Without a file it is the signal alone.
    pub fn new(file: Option<Text>, start: Instant) -> StopSign {
        StopSign {
            file,
            start,
            looked: AtomicU64::new(0),
            is_seen: AtomicBool::new(false),
            is_signal: AtomicBool::new(false),
        }
    }

    // Whether the last look is long ago. Where the time can't be told it is.
    fn is_due<R: Clock>(&self, rt: &R) -> bool {
        let Ok(spent) = self.start.elapsed(rt) else {
            return true;
        };
        let now = u64::try_from(spent.as_millis()).unwrap_or(u64::MAX);
        let looked = self.looked.load(Ordering::SeqCst);
        let is_due = now >= looked.saturating_add(LOOK_MILLIS);
        if is_due {
            self.looked.store(now, Ordering::SeqCst);
        }
        is_due
    }

    // A file's name that isn't UTF-8 is that of no file.
    fn is_file_there<R: Files>(&self, rt: &R) -> bool {
        let Some(file) = &self.file else {
            return false;
        };
        match str::from_utf8(file.bytes()) {
            Ok(name) => fs::exists(rt, name).unwrap_or(false),
            Err(_) => false,
        }
    }

    /// What is said of it, where somebody has seen it.
    pub fn reason(&self) -> Option<&'static str> {
        if self.is_signal.load(Ordering::SeqCst) {
            Some("the run is to end: SIGTERM came")
        } else if self.is_seen.load(Ordering::SeqCst) {
            Some("the run is to end: its stop file is there")
        } else {
            None
        }
    }

    /// Whether it was seen, looked at four times a second at most.
    pub fn is_set<R: Files + Clock + AllocGlobal>(&self, rt: &R) -> bool {
        if self.is_seen.load(Ordering::SeqCst) {
            return true;
        }
        if !self.is_due(rt) {
            return false;
        }
        let is_signal = is_term_pending(rt);
        let is_set = is_signal || self.is_file_there(rt);
        if is_set {
            self.is_signal.store(is_signal, Ordering::SeqCst);
            self.is_seen.store(true, Ordering::SeqCst);
        }
        is_set
    }
}
