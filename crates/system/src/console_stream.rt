// Operators' connections over TCP.
ghost use Rattle.std.specs.Prelude.{◌≡◌, ◌≤◌, ℕ, None, Some, Ok, true, length, IfOk};
ghost use Rattle.std.specs.Io.{ReadsAtMost};
ghost use Rattle.wire.specs.declared.peer.Peer.TheVariants.{Accepted};

use crate::EndSign;
use crate::stream::write_counted;
use edge::Outside;
use std::alloc::Global;
use std::io::{self, Error, ErrorKind, Read};
use std::net::{Shutdown, TcpStream};
use std::sync::Arc;
use std::time::{Duration, Instant};
use wire::{Failed, Link, Readiness};

/// How many milliseconds a wait for an operator's bytes takes at most, before it is looked whether the run is over.
const WAIT_MILLIS: u64 = 250;

/// How many seconds an operator may take for a line.
const LINE_SECONDS: u64 = 300;

/// How many seconds a write takes at most.
const WRITE_SECONDS: u64 = 10;

/// An operator's connection. Its end is said where the operator ended it, where no line's end came for 300 s, and where the run is
/// over, also while lines are still coming. It tells nothing of what goes over it.
#[derive(Drop)]
pub struct ConsoleLink<R: Outside> {
    /// Where the operator is.
    pub address: [u8; 4],
    pub read_faults: u64,
    pub write_faults: u64,
    /// Whether it wasn't ended yet.
    pub is_open: bool,
    rt: R,
    /// None once it was ended.
    stream: Option<TcpStream>,
    sign: Arc<EndSign, Global>,
    /// When a line's end came last.
    since: Instant,
}

// Whether a call gave nothing since nothing came in its time.
fn is_nothing_yet(error: &Error) -> bool {
    matches!(
        error.kind(),
        ErrorKind::WouldBlock | ErrorKind::TimedOut | ErrorKind::Interrupted
    )
}

// A read within the time of one wait. None where nothing came.
fn read_once(stream: &mut TcpStream, into: &mut [u8]) -> Result<Option<usize>, Failed>
    ensures { (count : ℕ) → result ≡ Ok (Some count) → count ≤ length into.new }
{
    match stream.read(into) {
        Ok(count) => Ok(Some(count)),
        Err(error) if is_nothing_yet(&error) => Ok(None),
        Err(_) => Err(Failed),
    }
}

impl<R: Outside> ConsoleLink<R> {
    /// A connection that was just accepted.
    pub(crate) fn new(
        rt: R,
        stream: TcpStream,
        address: [u8; 4],
        sign: Arc<EndSign, Global>,
    ) -> io::Result<ConsoleLink<R>>
        ensures reads { IfOk result (λ link. link.read_faults ≡ 0) }
        ensures writes { IfOk result (λ link. link.write_faults ≡ 0) }
        ensures address { IfOk result (λ link. link.address ≡ address) }
        ensures is_open { IfOk result (λ link. link.is_open ≡ true) }
    {
        stream.set_nonblocking(false)?;
        stream.set_nodelay(true)?;
        stream.set_read_timeout(Some(Duration::from_millis(WAIT_MILLIS)))?;
        stream.set_write_timeout(Some(Duration::from_secs(WRITE_SECONDS)))?;
        let since = Instant::now(&rt)?;
        Ok(ConsoleLink {
            address,
            read_faults: 0,
            write_faults: 0,
            is_open: true,
            rt,
            stream: Some(stream),
            sign,
            since,
        })
    }

    // Whether nothing is waited for any more.
    fn is_over(&self) -> bool {
        let spent = match self.since.elapsed(&self.rt) {
            Ok(spent) => spent,
            Err(_) => return true,
        };
        self.sign.is_raised() || spent >= Duration::from_secs(LINE_SECONDS)
    }

    // Gives the next line its time, where one ends among these bytes.
    fn note_line(&mut self, bytes: &[u8])
        ensures reads { self.new.read_faults ≡ self.old.read_faults }
        ensures writes { self.new.write_faults ≡ self.old.write_faults }
        ensures address { self.new.address ≡ self.old.address }
        ensures is_open { self.new.is_open ≡ self.old.is_open }
    {
        if let (true, Ok(now)) = (bytes.contains(&b'\n'), Instant::now(&self.rt)) {
            self.since = now;
        }
    }

    // Whether a read would answer at once.
    fn has_news(&self) -> bool {
        let Some(stream) = &self.stream else {
            return true;
        };
        let mut room = [0u8; 1];
        match stream.peek(&mut room) {
            Ok(_) => true,
            Err(error) => !is_nothing_yet(&error) || self.is_over(),
        }
    }

    // A read that waits until something comes, or nothing is waited for any more, which is the end.
    fn read_in_time(&mut self, into: &mut [u8]) -> Result<usize, Failed>
        ensures bound { ReadsAtMost result into.new }
        ensures reads { self.new.read_faults ≡ self.old.read_faults }
        ensures writes { self.new.write_faults ≡ self.old.write_faults }
        ensures address { self.new.address ≡ self.old.address }
        ensures is_open { self.new.is_open ≡ self.old.is_open }
    {
        for _ in 0..u64::MAX {
            if self.is_over() {
                return Ok(0);
            }
            let stream = self.stream.as_mut().ok_or(Failed)?;
            if let Some(count) = read_once(stream, into)? {
                self.note_line(into.get(..count).unwrap_or_default());
                return Ok(count);
            }
        }
        Err(Failed)
    }
}

impl<R: Outside> Link for ConsoleLink<R> {
    ghost flow = { λ _. None };

    ghost read_faults = { λ l. l.read_faults };

    ghost write_faults = { λ l. l.write_faults };

    ghost peer = { λ l. Accepted l.address };

    ghost is_open = { λ l. l.is_open };

    fn read(&mut self, into: &mut [u8]) -> Result<usize, Failed> {
        let answer = self.read_in_time(into);
        if answer.is_err() {
            self.read_faults = self.read_faults.saturating_add(1);
        }
        answer
    }

    /// A write that isn't taken in 10 s is a fault.
    fn write(&mut self, piece: &[u8]) -> Result<usize, Failed> {
        match &mut self.stream {
            Some(stream) => write_counted(stream, piece, &mut self.write_faults),
            None => {
                self.write_faults = self.write_faults.saturating_add(1);
                Err(Failed)
            }
        }
    }

    /// A quarter of a second at most.
    fn wait(&mut self) -> Readiness
        ensures same { self.new ≡ self.old }
    {
        if self.has_news() {
            Readiness::Ready
        } else {
            Readiness::NothingYet
        }
    }

    /// An operator's stream isn't used again.
    fn allow_reuse(&mut self)
        ensures same { self.new ≡ self.old }
    {}

    /// Its descriptor is given up. A connection that is over already can't be ended, and nobody is told.
    fn shut(&mut self) {
        self.is_open = false;
        if let Some(stream) = self.stream.take() {
            let _ = stream.shutdown(Shutdown::Both);
        }
    }
}
