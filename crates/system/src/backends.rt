// What all dialers share: addresses of hosts, who waits for which backend, and how each backend stands.

use crate::known_names::{KnownNames, serve_names};
use edge::{Outside, tell};
use std::alloc::{AllocError, Global};
use std::io::{self, ErrorKind};
use std::sync::atomic::{AtomicU64, Ordering};
use std::sync::{Arc, Mutex, Wait};
use std::thread::{self, Threads};
use std::time::Instant;
use units::Text;

/// How many threads look names up.
const LOOKERS: u32 = 4;

/// Of how many backends it is known at most how they stand.
const MAX_KNOWN: usize = 256;

/// For how many milliseconds half of all who dial may wait for a backend until others fail there at once.
const CROWDED_MILLIS: u128 = 1_000;

/// Whether an exchange may begin to wait for a backend's first byte.
#[derive(Clone, Copy, Debug, PartialEq, Eq)]
pub(crate) enum Turn {
    /// It has begun.
    Begun,
    /// Half of all who dial wait there.
    Later,
    /// They have waited there for too long, or as many connections to there are open as may be.
    Refused,
}

/// What the last exchange with a backend showed.
#[derive(Clone, Copy, Debug, PartialEq, Eq)]
pub(crate) enum Standing {
    /// It answers.
    There,
    /// No connection to it can be made.
    Unreachable,
    /// No answer came over a connection.
    Silent,
}

impl Standing {
    fn words(self) -> &'static str {
        match self {
            Standing::There => "is there again",
            Standing::Unreachable => "can't be reached",
            Standing::Silent => "is silent",
        }
    }
}

/// A backend's host and port.
#[derive(Drop)]
struct Backend {
    host: Text,
    port: Text,
    /// How many exchanges wait for a first byte.
    waiting: u64,
    /// How many connections were dialed and not handed back.
    open: u64,
    /// Since when half of all who dial wait there.
    crowded: Option<Instant>,
    standing: Standing,
}

impl Backend {
    fn is_at(&self, host: &Text, port: &Text) -> bool {
        self.host.bytes() == host.bytes() && self.port.bytes() == port.bytes()
    }

    // Whether as many wait as there may be, of so many who dial.
    fn is_crowded(&self, dialers: u64) -> bool {
        self.waiting > 0 && self.waiting.saturating_mul(2) >= dialers
    }

    // Whether half of all who dial have waited for too long.
    fn is_stuck<R: Outside>(&self, rt: &R) -> io::Result<bool> {
        match &self.crowded {
            Some(since) => Ok(since.elapsed(rt)?.as_millis() >= CROWDED_MILLIS),
            None => Ok(false),
        }
    }

    // Whether nobody has to do with it.
    fn is_idle(&self) -> bool {
        self.waiting == 0 && self.open == 0
    }

    // Counts one more connection, for whose first byte is waited, unless half of so many who dial wait for one, or as many connections
    // are open as may be.
    fn take_turn<R: Outside>(&mut self, rt: &R, dialers: u64, most_open: u64) -> io::Result<Turn> {
        if self.open >= most_open {
            return Ok(Turn::Refused);
        }
        if self.is_crowded(dialers) {
            let is_stuck = self.is_stuck(rt)?;
            return Ok(if is_stuck { Turn::Refused } else { Turn::Later });
        }
        let now = Instant::now(rt)?;
        self.waiting = self.waiting.saturating_add(1);
        self.open = self.open.saturating_add(1);
        if self.is_crowded(dialers) {
            self.crowded = Some(now);
        }
        Ok(Turn::Begun)
    }
}

/// What all dialers share.
#[derive(Drop)]
pub struct Backends {
    pub(crate) names: KnownNames,
    /// How many dialers there are: one for each worker.
    dialers: AtomicU64,
    known: Mutex<Vec<Backend>>,
}

// The place of a backend among those that are known, where it stands from now on. Where too many are known one goes with which nobody
// has to do; None where there is none.
fn place_of(
    known: &mut Vec<Backend>,
    host: &Text,
    port: &Text,
) -> Result<Option<usize>, AllocError> {
    if let Some(place) = known.iter().position(|backend| backend.is_at(host, port)) {
        return Ok(Some(place));
    }
    if known.len() >= MAX_KNOWN {
        let Some(idle) = known.iter().position(|backend| backend.is_idle()) else {
            return Ok(None);
        };
        drop(known.swap_remove(idle));
    }
    let backend = Backend {
        host: host.copy()?,
        port: port.copy()?,
        waiting: 0,
        open: 0,
        crowded: None,
        standing: Standing::There,
    };
    known.push(backend)?;
    Ok(known.len().checked_sub(1))
}

// Says how a backend stands.
fn tell_standing<R: Outside>(
    rt: &R,
    host: &Text,
    port: &Text,
    standing: Standing,
) -> Result<(), AllocError> {
    let host = str::from_utf8(host.bytes()).unwrap_or("?");
    let port = str::from_utf8(port.bytes()).unwrap_or("?");
    let words = standing.words();
    let line = format!(in rt.alloc(); "the backend {host}:{port} {words}")?;
    tell(rt, line.as_str());
    Ok(())
}

impl Backends {
    /// Counts one more who dials.
    pub(crate) fn count_dialer(&self) {
        self.dialers.fetch_add(1, Ordering::SeqCst);
    }

    /// Counts a connection to a backend, for whose first byte is to be waited, unless half of all who dial wait there, or so many
    /// connections to there are open.
    pub(crate) fn begin_wait<R: Outside>(
        &self,
        rt: &R,
        host: &Text,
        port: &Text,
        most_open: u64,
    ) -> io::Result<Turn> {
        let dialers = self.dialers.load(Ordering::SeqCst);
        let mut guard = self.known.lock(rt);
        let known = &mut *guard;
        let Some(place) = place_of(known, host, port)? else {
            return Ok(Turn::Begun);
        };
        match known.get_mut(place) {
            Some(backend) => backend.take_turn(rt, dialers, most_open),
            None => Ok(Turn::Begun),
        }
    }

    // Counts an exchange that waits no more. Whether what it showed is another thing than what was known.
    fn settle<R: Wait>(
        &self,
        rt: &R,
        host: &Text,
        port: &Text,
        found: Option<Standing>,
    ) -> Option<Standing> {
        let mut known = self.known.lock(rt);
        let backend = known.iter_mut().find(|backend| backend.is_at(host, port))?;
        backend.waiting = backend.waiting.saturating_sub(1);
        backend.crowded = None;
        let standing = found?;
        let is_change = backend.standing != standing;
        backend.standing = standing;
        if is_change { Some(standing) } else { None }
    }

    /// Says that an exchange waits no more for a backend's first byte, and what it showed of the backend.
    pub(crate) fn end_wait<R: Outside>(
        &self,
        rt: &R,
        host: &Text,
        port: &Text,
        found: Option<Standing>,
    ) {
        if let Some(standing) = self.settle(rt, host, port, found) {
            // There is nobody to tell where there is no memory for the line.
            let _ = tell_standing(rt, host, port, standing);
        }
    }

    /// Says that a connection to a backend is over.
    pub(crate) fn end_connection<R: Wait>(&self, rt: &R, host: &Text, port: &Text) {
        let mut known = self.known.lock(rt);
        if let Some(backend) = known.iter_mut().find(|backend| backend.is_at(host, port)) {
            backend.open = backend.open.saturating_sub(1);
        }
    }
}

// Looks names up for as long as there are any.
fn look_up_names<R: Outside>(rt: R, backends: &Backends) {
    serve_names(rt, &backends.names);
}

/// Backends of which nothing is known yet, and threads that look their names up.
pub fn begin_backends<R: Outside + Threads + Send + 'static>(
    rt: &R,
) -> io::Result<Arc<Backends, Global>> {
    let alloc = rt.alloc();
    let backends = Backends {
        names: KnownNames::new(alloc),
        dialers: AtomicU64::new(0),
        known: Mutex::new(Vec::new(alloc)),
    };
    let backends = Arc::new(alloc, backends)?;
    for turn in 0..LOOKERS {
        let (outside, theirs) = (*rt, Arc::try_clone(&backends)?);
        if thread::spawn(rt, move || look_up_names(outside, &theirs)).is_err() {
            return Err(io::Error::from(ErrorKind::OutOfMemory));
        }
    }
    Ok(backends)
}
