// The system's world: clients over a port of the machine's own, and files.
use crate::memory_world::push_files;
use std::alloc::Global;
use std::fs;
use std::io::{self, ErrorKind};
use std::net::{Shutdown, TcpListener};
use std::rt::Files;
use std::thread::Threads;
use system::{BackendLink, Outside, PortLink, PortListener, SystemWorld, TcpDialer};
use units::Text;
use wire::{Dialer, Link, Readiness, write_link};
use world::{Awaited, Kit, Listener, World};

const HOME: [u8; 4] = [127, 0, 0, 1];

/// How many bytes an answer has that the system doesn't take at once.
const LARGE: usize = 16_777_216;

/// How many clients may come, of whom half may wait.
const CLIENTS: usize = 16;

/// How often something is asked for at most until it comes.
const TRIES: u32 = 400;

/// Clients, and a server's links to them in the order in which it got them.
#[derive(Drop)]
struct Scene<R: Outside> {
    rt: R,
    listener: PortListener<R>,
    /// One for each client that is to come, since half of those who dial may wait for one server.
    dialers: Vec<TcpDialer<R>>,
    fars: Vec<BackendLink<R>>,
    nears: Vec<PortLink<R>>,
    /// The file whose coming ends the run.
    file: String,
}

fn broken() -> io::Error {
    io::Error::from(ErrorKind::BrokenPipe)
}

// A file's name that no other run looks at, since a free port of the machine's stands in it.
fn free_name<R: Outside>(rt: &R) -> io::Result<String> {
    let listener = TcpListener::bind(rt, "127.0.0.1:0")?;
    let port = listener.local_addr()?.port();
    Ok(format!(in rt.alloc(); "/tmp/varn-outside-tests-{port}")?)
}

// What a client sends, by its name.
fn piece_of(name: &str) -> &[u8] {
    match name {
        "get" => b"GET /a HTTP/1.1\r\nHost: h\r\n\r\n",
        "two" => b"GET /a HTTP/1.1\r\nHost: h\r\n\r\nGET /b HTTP/1.1\r\nHost: h\r\n\r\n",
        "front" => b"GET /a HTTP/1.1\r\nHo",
        "back" => b"st: h\r\n\r\n",
        "post" => b"POST /a HTTP/1.1\r\nHost: h\r\nContent-Length: 4\r\n\r\n",
        "body" => b"abcd",
        "asking" =>
            b"POST /a HTTP/1.1\r\nHost: h\r\nExpect: 100-continue\r\nContent-Length: 4\r\n\r\n",
        "chunks" => b"POST /a HTTP/1.1\r\nHost: h\r\nTransfer-Encoding: chunked\r\n\r\n4\r\nab",
        "end" => b"cd\r\n0\r\n\r\n",
        "large" => b"POST /a HTTP/1.1\r\nHost: h\r\nContent-Length: 2097152\r\n\r\n",
        "upload" => b"POST /a HTTP/1.1\r\nHost: h\r\nContent-Length: 800000\r\n\r\n",
        "junk" => &[b' '; 20_000],
        _ => b"",
    }
}

// What the listener says, in at most so many calls of it: a connection is kept among the links.
fn push_asked<R: Outside + Files + Send>(
    out: &mut String,
    scene: &mut Scene<R>,
    tries: u32,
) -> io::Result<()> {
    for _ in 0..tries {
        match scene.listener.accept() {
            Ok(Awaited::Came(link, address)) => {
                let is_home = address == HOME && link.address == HOME;
                scene.nears.push(link)?;
                return Ok(write!(out, "came {is_home} ")?);
            }
            Ok(Awaited::NobodyYet) => {}
            Ok(Awaited::End) => return Ok(write!(out, "end ")?),
            Err(_) => return Ok(write!(out, "failed ")?),
        }
    }
    Ok(write!(out, "nobody ")?)
}

// What a client reads at once, as text.
fn push_heard<R: Outside>(out: &mut String, far: &mut BackendLink<R>) -> io::Result<()> {
    let mut room = [0u8; 64];
    match far.read(&mut room) {
        Ok(count) => {
            let bytes = room.get(..count).unwrap_or_default();
            Ok(write!(out, "{:?} ", str::from_utf8(bytes).unwrap_or("?"))?)
        }
        Err(_) => Ok(write!(out, "fault ")?),
    }
}

// Sends so many bytes of a body as `upload` says, which are more than a worker reads at once.
fn pour<R: Outside>(out: &mut String, far: &mut BackendLink<R>) -> io::Result<()> {
    let mut is_sent = true;
    for _ in 0..40 {
        is_sent = is_sent && write_link(far, piece_of("junk")).is_ok();
    }
    Ok(write!(out, "poured {is_sent} ")?)
}

// How many bytes of an answer come that is so long as `fill` writes.
fn push_drained<R: Outside>(out: &mut String, far: &mut BackendLink<R>) -> io::Result<()> {
    let mut room = [0u8; 16_384];
    let mut total: usize = 0;
    for _ in 0..LARGE {
        match far.read(&mut room) {
            Ok(count) => total = total.saturating_add(count),
            Err(_) => break,
        }
        if total >= LARGE {
            break;
        }
    }
    Ok(write!(out, "drained {total} ")?)
}

// Writes more than the system takes at once.
fn push_filled<R: Outside + Files + Send>(
    out: &mut String,
    near: &mut PortLink<R>,
) -> io::Result<()> {
    let piece = [b'x'; 16_384];
    let mut is_filled = true;
    for _ in 0..LARGE / 16_384 {
        is_filled = is_filled && write_link(near, &piece).is_ok();
    }
    Ok(write!(out, "filled {is_filled} ")?)
}

// What a client does: the word, and what stands behind it.
fn push_client<R: Outside>(
    out: &mut String,
    far: &mut BackendLink<R>,
    word: &str,
    name: &str,
) -> io::Result<()> {
    match word {
        "send" => {
            if write_link(far, piece_of(name)).is_err() {
                write!(out, "unsent ")?;
            }
            Ok(())
        }
        "drain" => push_drained(out, far),
        "pour" => pour(out, far),
        "halve" => far.link.stream.shutdown(Shutdown::Write),
        "leave" => far.link.stream.shutdown(Shutdown::Both),
        _ => push_heard(out, far),
    }
}

// Asks a link until a read answers at once.
fn push_wait<R: Outside + Files + Send>(
    out: &mut String,
    near: &mut PortLink<R>,
) -> io::Result<()> {
    for _ in 0..TRIES {
        if near.wait() == Readiness::Ready {
            return Ok(write!(out, "ready ")?);
        }
    }
    Ok(write!(out, "nothing ")?)
}

// What the server does with a link.
fn push_server<R: Outside + Files + Send>(
    out: &mut String,
    near: &mut PortLink<R>,
    word: &str,
) -> io::Result<()> {
    match word {
        "ask" => write!(out, "{:?} ", near.wait())?,
        "wait" => push_wait(out, near)?,
        "fill" => push_filled(out, near)?,
        "read" => write!(out, "{:?} ", near.read(&mut [0u8; 32_768]))?,
        "answer" => write!(out, "wrote {} ", write_link(near, b"ok").is_ok())?,
        "faults" => write!(out, "faults {} {} ", near.read_faults, near.write_faults)?,
        _ => near.shut(),
    }
    Ok(())
}

// A new client.
fn dial<R: Outside>(alloc: Global, scene: &mut Scene<R>) -> io::Result<()> {
    let host = Text::of(alloc, b"127.0.0.1")?;
    let port = format!(in alloc; "{}", scene.listener.port)?;
    let port = Text::of(alloc, port.as_bytes())?;
    let mut dialer = scene.dialers.pop().ok_or(broken())?;
    let link = dialer.dial(&host, &port).map_err(|_| broken())?;
    Ok(scene.fars.push(link)?)
}

// A step of a scene: its word, then `-` and what is sent, and the number of the client or link, which is 0 where none is said.
fn push_step<R: Outside + Files + Send>(
    out: &mut String,
    scene: &mut Scene<R>,
    step: &str,
) -> io::Result<()> {
    let (step, number) = step.split_once(':').unwrap_or((step, "0"));
    let (word, name) = step.split_once('-').unwrap_or((step, ""));
    let number = number.parse::<usize>().unwrap_or(0);
    match word {
        "dial" => dial(scene.rt.alloc(), scene),
        "look" => push_asked(out, scene, 1),
        "take" => push_asked(out, scene, TRIES),
        "stop" => fs::write(&scene.rt, scene.file.as_str(), ""),
        "send" | "pour" | "hear" | "drain" | "halve" | "leave" => match scene.fars.get_mut(number) {
            Some(far) => push_client(out, far, word, name),
            None => Err(broken()),
        },
        _ => match scene.nears.get_mut(number) {
            Some(near) => push_server(out, near, word),
            None => Ok(write!(out, "no link ")?),
        },
    }
}

// All steps, then everything is handed back.
fn push_steps<R: Outside + Files + Send>(
    out: &mut String,
    world: &mut SystemWorld<R>,
    scene: Scene<R>,
    row: &str,
) -> io::Result<()> {
    let mut scene = scene;
    for step in row.split(' ') {
        push_step(out, &mut scene, step)?;
    }
    let Scene {
        rt,
        listener,
        nears,
        file,
        ..
    } = scene;
    for near in nears {
        let mut near = near;
        near.shut();
        world.keep_link(near);
    }
    world.retire(listener);
    let _ = fs::remove_file(&rt, file.as_str());
    let (kept, given, ended) = (world.kept, world.given, world.has_ended);
    Ok(write!(
        out,
        "kept {kept} of {given} ended {ended} faults {}",
        world.listen_faults
    )?)
}

// A scene at a free port: `kept` where a link is a whole connection, else it is a stretch.
fn scene_shown<R: Outside + Files + Threads + Send + 'static>(
    rt: R,
    word: &str,
    row: &str,
) -> io::Result<String>
where
    <R as Files>::File: Send,
    <R as Files>::Dir: Send,
{
    let mut out = String::new(rt.alloc());
    let mut world = SystemWorld::new(rt, HOME);
    let file = free_name(&rt)?;
    world.stop_file = Some(Text::of(rt.alloc(), file.as_bytes())?);
    world.gives_stretches = word != "kept";
    world.start()?;
    let listener = world.listen(0).map_err(|_| broken())?;
    let mut dialers = Vec::new(rt.alloc());
    for _ in 0..CLIENTS {
        let Kit { dialer, .. } = world.kit()?;
        dialers.push(dialer)?;
    }
    let scene = Scene {
        rt,
        listener,
        dialers,
        fars: Vec::new(rt.alloc()),
        nears: Vec::new(rt.alloc()),
        file,
    };
    push_steps(&mut out, &mut world, scene, row)?;
    Ok(out)
}

// A port that is taken isn't had, nor one where the loop hasn't begun.
fn taken_shown<R: Outside + Files + Threads + Send + 'static>(rt: R) -> io::Result<String>
where
    <R as Files>::File: Send,
    <R as Files>::Dir: Send,
{
    let mut world = SystemWorld::new(rt, HOME);
    let is_begun = world.listen(0).is_ok();
    world.start()?;
    let listener = world.listen(0).map_err(|_| broken())?;
    let is_taken = world.listen(listener.port).is_err();
    world.retire(listener);
    Ok(format!(in rt.alloc(); "{is_begun} {is_taken} faults {}", world.listen_faults)?)
}

fn files_shown<R: Outside + Files + Send>(rt: R, row: &str) -> io::Result<String>
where
    <R as Files>::File: Send,
    <R as Files>::Dir: Send,
{
    let mut world = SystemWorld::new(rt, HOME);
    let mut out = String::new(rt.alloc());
    push_files(rt.alloc(), &mut out, &mut world, row)?;
    write!(out, " faults {}", world.shelf_faults)?;
    Ok(out)
}

/// What is said of clients, of a port or of files, and what the world counts of it.
pub fn system_shown<R: Outside + Files + Threads + Send + 'static>(
    rt: R,
    row: &str,
) -> io::Result<String>
where
    <R as Files>::File: Send,
    <R as Files>::Dir: Send,
{
    let (word, rest) = row.split_once(' ').unwrap_or((row, ""));
    match word {
        "files" => files_shown(rt, rest),
        "taken" => taken_shown(rt),
        _ => scene_shown(rt, word, rest),
    }
}
