// Connections over TCP.
ghost use Rattle.std.specs.Prelude.{◌≡◌, true, None};

use crate::stream::{read_counted, write_counted};
use std::io::{Read, Write};
use std::net::{OpenStream, Shutdown};
use wire::{Failed, Link, Peer, Readiness};

/// A connection over a stream of the system's. It tells nothing of what goes over it.
#[derive(Drop)]
pub struct TcpLink<T: Read + Write + OpenStream + Drop> {
    pub stream: T,
    pub peer: Peer,
    pub read_faults: u64,
    pub write_faults: u64,
    /// Whether it wasn't ended yet.
    pub is_open: bool,
}

impl<T: Read + Write + OpenStream + Drop> TcpLink<T> {
    pub fn new(stream: T, peer: Peer) -> TcpLink<T>
        ensures { result ≡ record { stream = stream; peer = peer; read_faults = 0; write_faults = 0; is_open = true } }
    {
        TcpLink {
            stream,
            peer,
            read_faults: 0,
            write_faults: 0,
            is_open: true,
        }
    }
}

impl<T: Read + Write + OpenStream + Drop> Link for TcpLink<T> {
    ghost flow = { λ _. None };

    ghost read_faults = { λ l. l.read_faults };

    ghost write_faults = { λ l. l.write_faults };

    ghost peer = { λ l. l.peer };

    ghost is_open = { λ l. l.is_open };

    fn read(&mut self, into: &mut [u8]) -> Result<usize, Failed> {
        read_counted(&mut self.stream, into, &mut self.read_faults)
    }

    fn write(&mut self, piece: &[u8]) -> Result<usize, Failed> {
        write_counted(&mut self.stream, piece, &mut self.write_faults)
    }

    /// A read itself waits, as long as its stream does.
    fn wait(&mut self) -> Readiness
        ensures same { self.new ≡ self.old }
    {
        Readiness::Ready
    }

    /// Its stream isn't used again.
    fn allow_reuse(&mut self)
        ensures same { self.new ≡ self.old }
    {}

    /// A connection that is over already can't be ended, and nobody is told.
    fn shut(&mut self) {
        self.is_open = false;
        let _ = self.stream.shutdown(Shutdown::Both);
    }
}
