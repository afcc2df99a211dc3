// The outside of a program: the system's sockets, files and clock.
ghost use Rattle.std.specs.Prelude.{◌≡◌, false, None, IfOk};

use crate::backends::{Backends, begin_backends};
use crate::{SystemClock, SystemShelf, TcpDialer};
use access_log::{AccessLog, begin_log};
use edge::{Edge, Outside, PortLink, PortListener, begin_loop, tell};
use mio::net::TcpListener;
use std::alloc::{AllocError, Global};
use std::io::{self, ErrorKind};
use std::net::{Ipv4Addr, SocketAddr};
use std::rt::Files;
use std::sync::Arc;
use std::thread::Threads;
use units::Text;
use wire::Failed;
use world::{Kit, World};

/// The system's outside. It listens at one address of the machine's, and tells nothing but its counts.
#[derive(Drop)]
pub struct SystemWorld<R: Drop> {
    pub rt: R,
    pub address: [u8; 4],
    pub kept: u64,
    pub given: u64,
    pub listen_faults: u64,
    pub shelf_faults: u64,
    /// Whether a listener that was handed back said its end.
    pub has_ended: bool,
    /// A file that is looked at: once it is there the run is to end.
    pub stop_file: Option<Text>,
    /// A file that gets a line of each request, if one is to.
    pub log_file: Option<Text>,
    /// Whether links end between two requests, and their connections are given again with the next one.
    pub gives_stretches: bool,
    /// What its workers share with the loop, once it has begun.
    edge: Option<Arc<Edge, Global>>,
    /// The log, once it has begun.
    log: Option<Arc<AccessLog, Global>>,
    /// What its dialers share, once that has begun.
    backends: Option<Arc<Backends, Global>>,
}

impl<R: Drop> SystemWorld<R> {
    /// A world that listens at this address of the machine's; 0.0.0.0 is all of them.
    pub fn new(rt: R, address: [u8; 4]) -> SystemWorld<R>
        ensures kept { result.kept ≡ 0 }
        ensures given { result.given ≡ 0 }
        ensures listens { result.listen_faults ≡ 0 }
        ensures shelves { result.shelf_faults ≡ 0 }
        ensures ended { result.has_ended ≡ false }
    {
        SystemWorld {
            rt,
            address,
            kept: 0,
            given: 0,
            listen_faults: 0,
            shelf_faults: 0,
            has_ended: false,
            stop_file: None,
            log_file: None,
            gives_stretches: false,
            edge: None,
            log: None,
            backends: None,
        }
    }
}

impl<R: Outside + Files + Threads + Send + 'static> SystemWorld<R>
where
    <R as Files>::File: Send,
    <R as Files>::Dir: Send,
{
    // Begins the log, where a file for it is named, and gives a share of it.
    fn start_log(&mut self) -> io::Result<Option<Arc<AccessLog, Global>>> {
        let Some(file) = &self.log_file else {
            return Ok(None);
        };
        let log = begin_log(&self.rt, file.copy()?)?;
        let theirs = Arc::try_clone(&log)?;
        self.log = Some(log);
        Ok(Some(theirs))
    }

    /// Begins the threads of the outside: the loop that owns clients' connections, those that look hosts up, and the one that writes
    /// the log. Without them no port is had, and no kit.
    pub fn start(&mut self) -> io::Result<()> {
        let stop_file = match &self.stop_file {
            Some(file) => Some(file.copy()?),
            None => None,
        };
        let log = self.start_log()?;
        self.edge = Some(begin_loop(&self.rt, stop_file, log)?);
        self.backends = Some(begin_backends(&self.rt)?);
        Ok(())
    }
}

// Says where it is listened.
fn tell_port<R: Outside>(world: &SystemWorld<R>, port: u16) -> Result<(), AllocError> {
    let address = Ipv4Addr::from_octets(world.address);
    let line = format!(in world.rt.alloc(); "listening at {address}:{port}")?;
    tell(&world.rt, line.as_str());
    Ok(())
}

// A listener at this port, over the loop.
fn listener_at<R: Outside>(world: &SystemWorld<R>, port: u16) -> io::Result<PortListener<R>>
    ensures given { IfOk result (λ listener. listener.given ≡ 0) }
    ensures faults { IfOk result (λ listener. listener.faults ≡ 0) }
    ensures going { IfOk result (λ listener. listener.has_ended ≡ false) }
{
    let Some(edge) = &world.edge else {
        return Err(io::Error::from(ErrorKind::NotConnected));
    };
    let theirs = Arc::try_clone(edge)?;
    let listener = TcpListener::bind(&world.rt, SocketAddr::from((world.address, port)))?;
    let port = listener.local_addr()?.port();
    tell_port(world, port)?;
    edge.open(&world.rt, listener);
    Ok(PortListener::new(world.rt, theirs, port, world.gives_stretches))
}

impl<R: Outside + Files + Send> World for SystemWorld<R> {
    type Listener = PortListener<R>;

    type Dialer = TcpDialer<R>;

    type Clock = SystemClock<R>;

    type Shelf = SystemShelf<R>;

    ghost use Rattle.std.specs.Prelude.{None};

    ghost ports = { λ _. None };

    ghost links = { λ _. None };

    ghost kept = { λ w. w.kept };

    ghost given = { λ w. w.given };

    ghost kits = { λ _. None };

    ghost files = { λ _. None };

    ghost listen_faults = { λ w. w.listen_faults };

    ghost shelf_faults = { λ w. w.shelf_faults };

    ghost ended = { λ w. w.has_ended };

    fn listen(&mut self, port: u16) -> Result<PortListener<R>, Failed> {
        match listener_at(self, port) {
            Ok(listener) => Ok(listener),
            Err(_) => {
                self.listen_faults = self.listen_faults.saturating_add(1);
                Err(Failed)
            }
        }
    }

    fn shelf(&mut self) -> Result<SystemShelf<R>, AllocError> {
        Ok(SystemShelf::new(self.rt))
    }

    fn kit(&mut self) -> Result<Kit<TcpDialer<R>, SystemClock<R>>, AllocError> {
        let backends = self.backends.as_ref().ok_or(AllocError)?;
        Ok(Kit {
            dialer: TcpDialer::new(self.rt, Arc::try_clone(backends)?),
            clock: SystemClock::new(self.rt),
        })
    }

    fn keep_link(&mut self, _link: PortLink<R>) {
        self.kept = self.kept.saturating_add(1);
    }

    fn keep_kit(&mut self, _kit: Kit<TcpDialer<R>, SystemClock<R>>)
        ensures kept { self.new.kept ≡ self.old.kept }
        ensures given { self.new.given ≡ self.old.given }
        ensures listens { self.new.listen_faults ≡ self.old.listen_faults }
        ensures shelves { self.new.shelf_faults ≡ self.old.shelf_faults }
        ensures same { self.new ≡ self.old }
    {}

    /// The port is closed, and what was sent is brought out before, for half a minute at most; and the log is written to its end, for
    /// five seconds at most.
    fn retire(&mut self, listener: PortListener<R>) {
        listener.close();
        if let Some(log) = &self.log {
            log.close(&self.rt);
        }
        self.listen_faults = self.listen_faults.saturating_add(listener.faults);
        self.given = self.given.saturating_add(listener.given);
        self.has_ended = listener.has_ended || self.has_ended;
    }

    fn retire_shelf(&mut self, shelf: SystemShelf<R>) {
        self.shelf_faults = self.shelf_faults.saturating_add(shelf.faults);
    }
}
