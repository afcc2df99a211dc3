// Backends for which many wait.
use crate::tcp::port_text;
use std::alloc::{AllocError, Global};
use std::collections::VecDeque;
use std::io::{self, Write};
use std::net::TcpListener;
use std::sync::Arc;
use std::thread::Threads;
use system::{BackendLink, Outside, TcpDialer, begin_backends};
use units::Text;
use wire::{DialLimits, Dialer, Link};

// Who dials a listener that answers nobody by itself.
#[derive(Drop)]
struct Crowd<R: Outside> {
    listener: TcpListener,
    host: Text,
    port: Text,
    dialers: Vec<TcpDialer<R>>,
    links: VecDeque<BackendLink<R>, Global>,
}

impl<R: Outside + Threads + Send + 'static> Crowd<R> {
    // So many dialers, which share what they know.
    fn new(rt: R, alloc: Global, count: usize) -> io::Result<Crowd<R>> {
        let listener = TcpListener::bind(&rt, "127.0.0.1:0")?;
        let port = port_text(alloc, listener.local_addr()?.port())?;
        let backends = begin_backends(&rt)?;
        let mut dialers = Vec::new(alloc);
        for _ in 0..count {
            dialers.push(TcpDialer::new(rt, Arc::try_clone(&backends)?))?;
        }
        Ok(Crowd {
            listener,
            host: Text::of(alloc, b"127.0.0.1")?,
            port,
            dialers,
            links: VecDeque::new(alloc),
        })
    }
}

impl<R: Outside> Crowd<R> {
    // A dial by the dialer of this number: whether it is dialed, and the dialer's faults.
    fn push_dial(&mut self, said: &mut String, number: usize) -> io::Result<()> {
        let Some(dialer) = self.dialers.get_mut(number) else {
            return Ok(());
        };
        let is_dialed = match dialer.dial(&self.host, &self.port) {
            Ok(link) => self.links.push_back(link).is_ok(),
            Err(_) => false,
        };
        Ok(write!(said, "{is_dialed} {} ", dialer.dial_faults)?)
    }

    // The first who dialed gets a byte.
    fn answer_first(&mut self) -> io::Result<()> {
        let (mut near, _) = self.listener.accept()?;
        near.write_all(b"x")?;
        if let Some(link) = self.links.front_mut() {
            let _ = link.read(&mut [0u8; 1]);
        }
        Ok(())
    }
}

fn crowded<R: Outside + Threads + Send + 'static>(
    rt: R,
    alloc: Global,
    count: usize,
) -> io::Result<String> {
    let mut said = String::new(alloc);
    let mut crowd = Crowd::new(rt, alloc, count)?;
    for number in 0..count {
        crowd.push_dial(&mut said, number)?;
    }
    crowd.answer_first()?;
    write!(said, "then ")?;
    crowd.push_dial(&mut said, count.saturating_sub(1))?;
    Ok(said)
}

// The limits of dials to a backend to which so many connections may be open.
fn limits(most: i64) -> DialLimits {
    DialLimits {
        connecting: 3_500,
        first_byte: 60_000,
        between_bytes: 60_000,
        whole: None,
        most_open: Some(most),
    }
}

impl<R: Outside> Crowd<R> {
    // The first who dialed gets a byte and hands the connection back, whose stream is kept.
    fn hang_up_first(&mut self) -> io::Result<()> {
        self.answer_first()?;
        let (mut link, dialer) = match (self.links.pop_front(), self.dialers.first_mut()) {
            (Some(link), Some(dialer)) => (link, dialer),
            _ => return Ok(()),
        };
        link.allow_reuse();
        link.shut();
        dialer.hang_up(link);
        Ok(())
    }
}

// Three dials where so many connections may be open, then one where one of these was handed back.
fn full<R: Outside + Threads + Send + 'static>(
    rt: R,
    alloc: Global,
    most: i64,
) -> io::Result<String> {
    let mut said = String::new(alloc);
    let mut crowd = Crowd::new(rt, alloc, 8)?;
    for dialer in &mut crowd.dialers {
        dialer.within(limits(most));
    }
    for number in 0..3 {
        crowd.push_dial(&mut said, number)?;
    }
    crowd.hang_up_first()?;
    write!(said, "then ")?;
    crowd.push_dial(&mut said, 3)?;
    Ok(said)
}

/// Dials to a backend to which so many connections may be open, each with its dialer's faults, and one by another dialer once the first
/// connection was handed back, whose stream is kept.
pub fn full_shown<R: Outside + Threads + Send + 'static>(
    rt: R,
    alloc: Global,
    most: usize,
) -> Result<String, AllocError> {
    match full(rt, alloc, i64::try_from(most).unwrap_or(i64::MAX)) {
        Ok(said) => Ok(said),
        Err(_) => format!(in alloc; "the system fails"),
    }
}

// A dial to a port at which nobody listens, and one where somebody does, where one connection may be open.
fn refused<R: Outside + Threads + Send + 'static>(rt: R, alloc: Global) -> io::Result<String> {
    let mut said = String::new(alloc);
    let listener = TcpListener::bind(&rt, "127.0.0.1:0")?;
    let address = listener.local_addr()?;
    drop(listener);
    let host = Text::of(alloc, b"127.0.0.1")?;
    let port = port_text(alloc, address.port())?;
    let mut dialer = TcpDialer::new(rt, begin_backends(&rt)?);
    dialer.within(limits(1));
    write!(
        said,
        "{} {} ",
        dialer.dial(&host, &port).is_ok(),
        dialer.dial_faults
    )?;
    let _listener = TcpListener::bind(&rt, address)?;
    write!(
        said,
        "{} {} ",
        dialer.dial(&host, &port).is_ok(),
        dialer.dial_faults
    )?;
    Ok(said)
}

/// Whether a dial that is refused leaves its place to a later one, each with the dialer's faults.
pub fn refused_shown<R: Outside + Threads + Send + 'static>(
    rt: R,
    alloc: Global,
) -> Result<String, AllocError> {
    match refused(rt, alloc) {
        Ok(said) => Ok(said),
        Err(_) => format!(in alloc; "the system fails"),
    }
}

/// Dials by so many dialers to a backend that is silent, each with its faults, and one by the last of them once the first was answered.
pub fn crowd_shown<R: Outside + Threads + Send + 'static>(
    rt: R,
    alloc: Global,
    count: usize,
) -> Result<String, AllocError> {
    match crowded(rt, alloc, count) {
        Ok(said) => Ok(said),
        Err(_) => format!(in alloc; "the system fails"),
    }
}
