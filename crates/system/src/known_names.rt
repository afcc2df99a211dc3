// Addresses of hosts that were looked up before.

use edge::Outside;
use std::alloc::{AllocError, AllocGlobal, Global};
use std::io::{self, ErrorKind};
use std::net::{IpAddr, Net, SocketAddr, ToSocketAddrs};
use std::rt::Clock;
use std::sync::{Condvar, Mutex, Wait};
use std::time::{Duration, Instant};
use units::Text;

/// How many seconds the addresses of a host are used until it is looked up anew.
const KEEP_SECONDS: u64 = 30;

/// Of how many hosts the addresses are kept at most.
const MAX_KNOWN: usize = 64;

/// A host's port, and what was found of it last.
#[derive(Drop)]
struct KnownName {
    host: Text,
    port: Text,
    /// None where nothing was found yet.
    addresses: Vec<SocketAddr>,
    /// When they were found.
    since: Instant,
    /// Whether somebody is to look them up.
    is_asked: bool,
    /// Whether a thread does so.
    is_under_way: bool,
}

impl KnownName {
    fn is_of(&self, host: &Text, port: &Text) -> bool {
        self.host.bytes() == host.bytes() && self.port.bytes() == port.bytes()
    }

    // Whether its addresses were found not long ago.
    fn is_young<R: Clock>(&self, rt: &R) -> bool {
        match self.since.elapsed(rt) {
            Ok(time) => time < Duration::from_secs(KEEP_SECONDS),
            Err(_) => false,
        }
    }

    // Keeps what was found. Where nothing was, the last addresses serve for as long again.
    fn settle<R: Clock>(&mut self, rt: &R, found: io::Result<Vec<SocketAddr>>) {
        self.is_asked = false;
        self.is_under_way = false;
        if let Ok(since) = Instant::now(rt) {
            self.since = since;
        }
        match found {
            Ok(found) if !found.is_empty() => self.addresses = found,
            _ => {}
        }
    }

    // Asks for it to be looked up, where that wasn't done lately. Whether nobody had asked for that.
    fn ask<R: Clock>(&mut self, rt: &R) -> bool {
        let is_new = !self.is_asked && (self.addresses.is_empty() || !self.is_young(rt));
        self.is_asked = self.is_asked || is_new;
        is_new
    }
}

fn bad_name() -> io::Error {
    io::Error::from(ErrorKind::InvalidInput)
}

fn text_of(name: &Text) -> io::Result<&str> {
    str::from_utf8(name.bytes()).map_err(|_| bad_name())
}

fn number_of(port: &Text) -> io::Result<u16> {
    text_of(port)?.parse().map_err(|_| bad_name())
}

// The addresses of a host's port, as the system looks them up now. It takes as long as that takes.
fn look_up<R: Net + AllocGlobal>(rt: &R, host: &Text, port: &Text) -> io::Result<Vec<SocketAddr>> {
    let place = (text_of(host)?, number_of(port)?);
    let mut addresses = Vec::new(rt.alloc());
    for address in place.to_socket_addrs(rt)? {
        addresses.push(address)?;
    }
    Ok(addresses)
}

// The address of a host that is one in digits, so that nobody has to look it up.
fn address_in_digits(host: &Text, port: &Text) -> Option<SocketAddr> {
    let address: IpAddr = text_of(host).ok()?.parse().ok()?;
    Some(SocketAddr::new(address, number_of(port).ok()?))
}

/// What was found of each host and port, for all who dial. Threads of their own look them up, each name one at a time.
#[derive(Drop)]
pub(crate) struct KnownNames {
    names: Mutex<Vec<KnownName>>,
    /// Rung where a look-up is over.
    bell: Condvar,
    /// Rung where one is asked for.
    wish: Condvar,
}

// The place of a host's port among the names, where it stands from now on.
fn place_of<R: Clock>(
    rt: &R,
    names: &mut Vec<KnownName>,
    host: &Text,
    port: &Text,
) -> io::Result<usize> {
    if let Some(place) = names.iter().position(|known| known.is_of(host, port)) {
        return Ok(place);
    }
    if names.len() >= MAX_KNOWN {
        drop(names.swap_remove(0));
    }
    let known = KnownName {
        host: host.copy()?,
        port: port.copy()?,
        addresses: Vec::new(*names.allocator()),
        since: Instant::now(rt)?,
        is_asked: false,
        is_under_way: false,
    };
    names.push(known)?;
    Ok(names.len().saturating_sub(1))
}

// The addresses that are known of a host's port.
fn addresses_among(names: &[KnownName], host: &Text, port: &Text) -> io::Result<Vec<SocketAddr>> {
    match names.iter().find(|known| known.is_of(host, port)) {
        Some(known) if !known.addresses.is_empty() => Ok(known.addresses.clone()?),
        _ => Err(io::Error::from(ErrorKind::NotFound)),
    }
}

// Whether a host's port is looked up just now.
fn is_asked(names: &[KnownName], host: &Text, port: &Text) -> bool {
    names
        .iter()
        .any(|known| known.is_asked && known.is_of(host, port))
}

// A host and port that is to be looked up, and that nobody looks up yet. From now on somebody does.
fn take_asked(names: &mut [KnownName]) -> Result<Option<(Text, Text)>, AllocError> {
    let asked = names
        .iter_mut()
        .find(|known| known.is_asked && !known.is_under_way);
    let Some(known) = asked else {
        return Ok(None);
    };
    let name = (known.host.copy()?, known.port.copy()?);
    known.is_under_way = true;
    Ok(Some(name))
}

impl KnownNames {
    /// Names of which nothing is known yet.
    pub fn new(alloc: Global) -> KnownNames {
        KnownNames {
            names: Mutex::new(Vec::new(alloc)),
            bell: Condvar::new(),
            wish: Condvar::new(),
        }
    }

    // Asks for a host's port to be looked up, where that wasn't done lately.
    fn ask<R: Clock + Wait>(&self, rt: &R, host: &Text, port: &Text) -> io::Result<()> {
        let mut guard = self.names.lock(rt);
        let names = &mut *guard;
        let place = place_of(rt, names, host, port)?;
        if names.get_mut(place).is_some_and(|known| known.ask(rt)) {
            self.wish.notify_one();
        }
        Ok(())
    }

    // Keeps what a look-up found. Where it found nothing the last addresses serve for as long again.
    fn settle<R: Clock + Wait>(
        &self,
        rt: &R,
        host: &Text,
        port: &Text,
        found: io::Result<Vec<SocketAddr>>,
    ) {
        let mut names = self.names.lock(rt);
        if let Some(known) = names.iter_mut().find(|known| known.is_of(host, port)) {
            known.settle(rt, found);
        }
        drop(names);
        self.bell.notify_all();
    }

    // The addresses of a host's port, once no look-up of it is under way that may bring some, and within this time.
    fn found<R: Clock + Wait>(
        &self,
        rt: &R,
        host: &Text,
        port: &Text,
        limit: Duration,
    ) -> io::Result<Vec<SocketAddr>> {
        let names = self.names.lock(rt);
        if let Ok(addresses) = addresses_among(names.as_slice(), host, port) {
            return Ok(addresses);
        }
        let (names, _) = self.bell.wait_timeout_while(
            rt,
            names,
            limit,
            |names| is_asked(names.as_slice(), host, port),
        );
        addresses_among(names.as_slice(), host, port)
    }

    // A host and port that is to be looked up, once one is asked for.
    fn next_asked<R: Wait>(&self, rt: &R) -> (Text, Text) {
        let mut names = self.names.lock(rt);
        for _ in rt.forever() {
            if let Ok(Some(asked)) = take_asked(names.as_mut_slice()) {
                return asked;
            }
            names = self.wish.wait(rt, names);
        }
        unreachable!()
    }
}

/// Looks names up that are asked for, one behind another.
pub(crate) fn serve_names<R: Outside>(rt: R, names: &KnownNames) {
    for _ in rt.forever() {
        let (host, port) = names.next_asked(&rt);
        let found = look_up(&rt, &host, &port);
        names.settle(&rt, &host, &port, found);
    }
}

/// The addresses of a host's port: those that were found last, or else those that are found within this time. Where they were found
/// over 30 s ago the host is looked up anew meanwhile.
pub(crate) fn addresses_of<R: Outside>(
    rt: &R,
    names: &KnownNames,
    host: &Text,
    port: &Text,
    limit: Duration,
) -> io::Result<Vec<SocketAddr>> {
    if let Some(address) = address_in_digits(host, port) {
        return Ok(Vec::from_array(rt.alloc(), [address])?);
    }
    number_of(port)?;
    names.ask(rt, host, port)?;
    names.found(rt, host, port, limit)
}
