// Where operators come in.
ghost use Rattle.std.specs.Prelude.{◌≡◌, false, true, IfOk, IfSome};

use crate::{ConsoleLink, EndSign};
use edge::Outside;
use std::alloc::Global;
use std::io::{self, ErrorKind};
use std::net::{Ipv4Addr, SocketAddr, TcpListener};
use std::sync::Arc;
use std::thread;
use std::time::Duration;
use wire::Failed;
use world::{Awaited, Listener};

/// How many milliseconds apart it is looked whether an operator came.
const LOOK_MILLIS: u64 = 100;

/// The machine's own address: a console has no password.
const LOOPBACK: [u8; 4] = [127, 0, 0, 1];

/// A listener at a port of the machine's own address. It ends where the run is over.
#[derive(Drop)]
pub struct ConsoleListener<R: Outside> {
    pub given: u64,
    pub faults: u64,
    /// Whether it said its end.
    pub has_ended: bool,
    rt: R,
    listener: TcpListener,
    sign: Arc<EndSign, Global>,
}

// The address of a connection over IPv4.
fn octets(address: SocketAddr) -> [u8; 4] {
    match address {
        SocketAddr::V4(address) => address.ip().octets(),
        SocketAddr::V6(_) => LOOPBACK,
    }
}

impl<R: Outside> ConsoleListener<R> {
    /// A listener that has given no connection yet.
    pub(crate) fn at(rt: R, port: u16, sign: Arc<EndSign, Global>) -> io::Result<ConsoleListener<R>>
        ensures given { IfOk result (λ listener. listener.given ≡ 0) }
        ensures faults { IfOk result (λ listener. listener.faults ≡ 0) }
        ensures going { IfOk result (λ listener. listener.has_ended ≡ false) }
    {
        let address = SocketAddr::from((Ipv4Addr::from_octets(LOOPBACK), port));
        let listener = TcpListener::bind(&rt, address)?;
        listener.set_nonblocking(true)?;
        Ok(ConsoleListener {
            given: 0,
            faults: 0,
            has_ended: false,
            rt,
            listener,
            sign,
        })
    }

    // A connection that waits to be accepted. None where there is none.
    fn next(&self) -> io::Result<Option<ConsoleLink<R>>>
        ensures reads { IfOk result (λ found. IfSome found (λ link. link.read_faults ≡ 0)) }
        ensures writes { IfOk result (λ found. IfSome found (λ link. link.write_faults ≡ 0)) }
        ensures is_open { IfOk result (λ found. IfSome found (λ link. link.is_open ≡ true)) }
    {
        match self.listener.accept() {
            Ok((stream, address)) => {
                let sign = Arc::try_clone(&self.sign)?;
                let link = ConsoleLink::new(self.rt, stream, octets(address), sign)?;
                Ok(Some(link))
            }
            Err(error) if error.kind() == ErrorKind::WouldBlock => Ok(None),
            Err(error) => Err(error),
        }
    }
}

impl<R: Outside + Send> Listener for ConsoleListener<R> {
    type Link = ConsoleLink<R>;

    ghost faults = { λ l. l.faults };

    ghost ended = { λ l. l.has_ended };

    ghost given = { λ l. l.given };

    /// A tenth of a second at most.
    fn accept(&mut self) -> Result<Awaited<ConsoleLink<R>>, Failed> {
        if self.sign.is_raised() {
            self.has_ended = true;
            return Ok(Awaited::End);
        }
        match self.next() {
            Ok(Some(link)) => {
                self.given = self.given.saturating_add(1);
                let address = link.address;
                Ok(Awaited::Came(link, address))
            }
            Ok(None) => {
                thread::sleep(&self.rt, Duration::from_millis(LOOK_MILLIS));
                Ok(Awaited::NobodyYet)
            }
            Err(_) => {
                self.faults = self.faults.saturating_add(1);
                thread::sleep(&self.rt, Duration::from_millis(LOOK_MILLIS));
                Err(Failed)
            }
        }
    }
}
