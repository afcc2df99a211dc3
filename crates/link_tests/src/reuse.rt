// Streams to a backend that serve one exchange after another.
use crate::tcp::port_text;
use std::alloc::{AllocError, Global};
use std::io::{self, ErrorKind, Read, Write};
use std::net::{OpenStream, TcpListener, TcpStream};
use std::thread::Threads;
use std::time::Duration;
use system::{BackendLink, Outside, TcpDialer, begin_backends};
use units::Text;
use wire::{DialLimits, Dialer, Link, write_link};

const LIMITS: DialLimits = DialLimits {
    connecting: 3_500,
    first_byte: 300,
    between_bytes: 300,
    whole: None,
    most_open: None,
};

fn failed() -> io::Error {
    io::Error::from(ErrorKind::Other)
}

// A backend and who dials it.
#[derive(Drop)]
struct Scene<R: Outside> {
    listener: TcpListener,
    dialer: TcpDialer<R>,
    host: Text,
    port: Text,
    alloc: Global,
}

impl<R: Outside + Threads + Send + 'static> Scene<R> {
    fn new(rt: R, alloc: Global) -> io::Result<Scene<R>> {
        let listener = TcpListener::bind(&rt, "127.0.0.1:0")?;
        let host = Text::of(alloc, b"127.0.0.1")?;
        let port = port_text(alloc, listener.local_addr()?.port())?;
        let mut dialer = TcpDialer::new(rt, begin_backends(&rt)?);
        dialer.within(LIMITS);
        Ok(Scene {
            listener,
            dialer,
            host,
            port,
            alloc,
        })
    }
}

impl<R: Outside> Scene<R> {
    fn dial(&mut self) -> io::Result<BackendLink<R>> {
        self.dialer
            .dial(&self.host, &self.port)
            .map_err(|_| failed())
    }

    // The stream of an exchange with a reply of a byte, which may serve another.
    fn exchange_first(&mut self) -> io::Result<TcpStream> {
        let mut link = self.dial()?;
        let (mut stream, _) = self.listener.accept()?;
        write_link(&mut link, b"GET / HTTP/1.1\r\n\r\n").map_err(|_| failed())?;
        let mut room = [0u8; 64];
        stream.read(&mut room)?;
        stream.write_all(b"x")?;
        link.read(&mut room).map_err(|_| failed())?;
        link.allow_reuse();
        link.shut();
        self.dialer.hang_up(link);
        Ok(stream)
    }

    // Sends a request and waits for a reply, which doesn't come.
    fn ask(&mut self, mut link: BackendLink<R>, method: &str) -> io::Result<()> {
        let alloc = self.alloc;
        let text = format!(in alloc; "{method} / HTTP/1.1\r\n\r\n")?;
        let _ = write_link(&mut link, text.as_bytes());
        let _ = link.read(&mut [0u8; 1]);
        link.shut();
        self.dialer.hang_up(link);
        Ok(())
    }
}

// Whether a request of this method comes at the stream.
fn comes_at(stream: &mut TcpStream, method: &str) -> io::Result<bool> {
    stream.set_read_timeout(Some(Duration::from_millis(300)))?;
    let mut room = [0u8; 64];
    match stream.read(&mut room) {
        Ok(count) => Ok(room[..count].starts_with(method.as_bytes())),
        Err(_) => Ok(false),
    }
}

// What becomes of the first exchange's stream before the second is dialed. None where it is ended.
fn meanwhile(stream: TcpStream, event: &str) -> io::Result<Option<TcpStream>> {
    let mut stream = stream;
    match event {
        "ends" => Ok(None),
        "sends" => {
            stream.write_all(b"y")?;
            Ok(Some(stream))
        }
        _ => Ok(Some(stream)),
    }
}

// Where the second request came: at the first stream, or at a new one.
fn place_of<R: Outside>(
    scene: &Scene<R>,
    first: Option<TcpStream>,
    method: &str,
) -> io::Result<&'static str> {
    if let Some(mut first) = first {
        if comes_at(&mut first, method)? {
            return Ok("first");
        }
    }
    scene.listener.set_nonblocking(true)?;
    let (mut second, _) = scene.listener.accept()?;
    second.set_nonblocking(false)?;
    Ok(if comes_at(&mut second, method)? {
        "second"
    } else {
        "nowhere"
    })
}

fn reused<R: Outside + Threads + Send + 'static>(
    rt: R,
    alloc: Global,
    event: &str,
    method: &str,
) -> io::Result<&'static str> {
    let mut scene = Scene::new(rt, alloc)?;
    let first = scene.exchange_first()?;
    let mut first = meanwhile(first, event)?;
    let link = scene.dial()?;
    if event == "ends_late" {
        first = None;
    }
    scene.ask(link, method)?;
    place_of(&scene, first, method)
}

/// Where a second request came.
pub fn reuse_shown<R: Outside + Threads + Send + 'static>(
    rt: R,
    alloc: Global,
    row: &str,
) -> Result<String, AllocError> {
    let (event, method) = row.split_once(' ').unwrap_or((row, ""));
    match reused(rt, alloc, event, method) {
        Ok(place) => String::from_str(alloc, place),
        Err(_) => String::from_str(alloc, "the system fails"),
    }
}
