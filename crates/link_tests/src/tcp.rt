// A connection over TCP.
use std::alloc::{AllocError, Global};
use std::io;
use std::net::{OpenStream, TcpListener, TcpStream};
use std::sync::Arc;
use std::thread::Threads;
use std::time::{Duration, Instant};
use system::{BackendLink, Outside, TcpDialer, TcpLink, begin_backends};
use units::Text;
use wire::{DialLimits, Dialer, Link, Peer, write_link};

pub(crate) fn port_text(alloc: Global, port: u16) -> Result<Text, AllocError> {
    Text::of(alloc, format!(in alloc; "{port}")?.as_bytes())
}

// Whether small pieces are sent at once, and a call that takes longer than so many seconds fails. It is asked behind a read.
fn is_set_up<T: OpenStream>(stream: &T, seconds: u64) -> io::Result<bool> {
    let most = Some(Duration::from_secs(seconds));
    Ok(stream.nodelay()? && stream.read_timeout()? == most && stream.write_timeout()? == most)
}

// One piece each way, and the end of what the second sends.
fn is_exchanged<A: Link, B: Link>(one: &mut A, other: &mut B) -> bool {
    let mut room = [0u8; 8];
    write_link(one, b"ping").is_ok()
        && other.read(&mut room) == Ok(4)
        && write_link(other, b"pong!").is_ok()
        && is_end(one, other)
}

fn is_end<A: Link, B: Link>(one: &mut A, other: &mut B) -> bool {
    let mut room = [0u8; 8];
    other.shut();
    one.read(&mut room) == Ok(5) && one.read(&mut room) == Ok(0) && room.starts_with(b"pong!")
}

// Nobody reads any more: a write fails, and the program goes on.
fn write_on<L: Link>(link: &mut L) {
    for _ in 0..100 {
        if link.write(b"x").is_err() {
            break;
        }
    }
}

// What is exchanged over a dialed connection, and its faults once the other end is gone.
fn talk<R: Outside>(
    dialer: &mut TcpDialer<R>,
    alloc: Global,
    mut link: BackendLink<R>,
    other: TcpStream,
    seconds: u64,
) -> io::Result<String> {
    let mut other = TcpLink::new(other, Peer::Accepted([127, 0, 0, 1]));
    let is_exchanged = is_exchanged(&mut link, &mut other);
    let is_set_up = is_set_up(&link.link.stream, seconds)?;
    drop(other);
    write_on(&mut link);
    let (reads, writes) = (link.link.read_faults, link.link.write_faults);
    link.shut();
    dialer.hang_up(link);
    Ok(format!(in alloc; "{is_set_up} {is_exchanged} {reads} {writes}")?)
}

// A dial to a port at which someone listens, and one when nobody does any more.
fn dial<R: Outside>(
    dialer: &mut TcpDialer<R>,
    alloc: Global,
    listener: TcpListener,
    seconds: u64,
) -> io::Result<String> {
    let host = Text::of(alloc, b"127.0.0.1")?;
    let port = port_text(alloc, listener.local_addr()?.port())?;
    let Ok(link) = dialer.dial(&host, &port) else {
        return Ok(format!(in alloc; "no dial")?);
    };
    let (stream, _) = listener.accept()?;
    let said = talk(dialer, alloc, link, stream, seconds)?;
    drop(listener);
    let is_refused = dialer.dial(&host, &port).is_err();
    Ok(format!(in alloc; "{said} {is_refused}")?)
}

/// A connection over TCP: whether it is set up with so many seconds for a call, whether pieces go both ways, its faults of reads
/// and writes, whether a dial to a closed port fails, and the dialer's faults of dials and writes.
pub fn tcp_shown<R: Outside + Threads + Send + 'static>(
    rt: R,
    alloc: Global,
    seconds: usize,
) -> Result<String, AllocError> {
    let Ok(listener) = TcpListener::bind(&rt, "127.0.0.1:0") else {
        return format!(in alloc; "no port");
    };
    let Ok(backends) = begin_backends(&rt) else {
        return format!(in alloc; "no backends");
    };
    let mut dialer = TcpDialer::new(rt, backends);
    let Ok(said) = dial(&mut dialer, alloc, listener, seconds as u64) else {
        return format!(in alloc; "the system fails");
    };
    format!(in alloc; "{said} {} {}", dialer.dial_faults, dialer.write_faults)
}

// A read from someone who sends nothing: whether it fails, in no less than so many milliseconds and no more than ten seconds more.
fn unanswered<R: Outside>(
    rt: R,
    alloc: Global,
    dialer: &mut TcpDialer<R>,
    millis: u64,
) -> io::Result<String> {
    let listener = TcpListener::bind(&rt, "127.0.0.1:0")?;
    let host = Text::of(alloc, b"127.0.0.1")?;
    let port = port_text(alloc, listener.local_addr()?.port())?;
    let Ok(mut link) = dialer.dial(&host, &port) else {
        return Ok(format!(in alloc; "no dial")?);
    };
    let start = Instant::now(&rt)?;
    let fails = link.read(&mut [0u8; 1]).is_err();
    let spent = start.elapsed(&rt)?.as_millis();
    let least = u128::from(millis);
    let in_time = spent >= least && spent <= least.saturating_add(10_000);
    link.shut();
    dialer.hang_up(link);
    Ok(format!(in alloc; "{fails} {in_time} {}", dialer.read_faults)?)
}

/// The same where the first byte, and then where the whole, is to come within so many milliseconds; each with the dialer's faults of
/// reads.
pub fn within_shown<R: Outside + Threads + Send + 'static>(
    rt: R,
    alloc: Global,
    millis: usize,
) -> Result<String, AllocError> {
    let limits = DialLimits {
        connecting: 3_500,
        first_byte: millis as u64,
        between_bytes: 60_000,
        whole: None,
        most_open: None,
    };
    let Ok(backends) = begin_backends(&rt) else {
        return format!(in alloc; "no backends");
    };
    let mut dialer = TcpDialer::new(rt, backends);
    dialer.within(limits);
    let first = unanswered(rt, alloc, &mut dialer, millis as u64);
    dialer.within(DialLimits {
        first_byte: 60_000,
        whole: Some((millis as u64).saturating_add(20)),
        ..limits
    });
    let whole = unanswered(rt, alloc, &mut dialer, millis as u64);
    match (first, whole) {
        (Ok(first), Ok(whole)) => format!(in alloc; "{first}, {whole}"),
        _ => format!(in alloc; "the system fails"),
    }
}

// Whether a dial to a host by this name comes to a listener of the machine's own, and another one behind it.
fn dial_name<R: Outside + Threads + Send + 'static>(
    rt: R,
    alloc: Global,
    name: &str,
) -> io::Result<String> {
    let listener = TcpListener::bind(&rt, "127.0.0.1:0")?;
    let host = Text::of(alloc, name.as_bytes())?;
    let port = port_text(alloc, listener.local_addr()?.port())?;
    let backends = begin_backends(&rt)?;
    let mut said = String::new(alloc);
    for _ in 0..2 {
        let mut dialer = TcpDialer::new(rt, Arc::try_clone(&backends)?);
        let is_dialed = match dialer.dial(&host, &port) {
            Ok(mut link) => {
                link.shut();
                dialer.hang_up(link);
                true
            }
            Err(_) => false,
        };
        write!(said, "{is_dialed} {} ", dialer.dial_faults)?;
    }
    Ok(said)
}

/// Two dials to a host by this name by dialers that share what they know: whether each is dialed, and its dialer's faults.
pub fn name_shown<R: Outside + Threads + Send + 'static>(
    rt: R,
    alloc: Global,
    name: &str,
) -> Result<String, AllocError> {
    match dial_name(rt, alloc, name) {
        Ok(said) => Ok(said),
        Err(_) => format!(in alloc; "the system fails"),
    }
}
