// What the adapters take of the runtime.

use std::alloc::AllocGlobal;
use std::net::{Net, TcpListener, TcpStream};
use std::random::RandomSource;
use std::rt::Clock;
use std::sync::Wait;

/// A runtime with the network, a clock, standard error, randomness and locks. Threads of the adapters have it too, so files aren't among
/// these: no bound of a trait says that what belongs to a file crosses threads.
pub trait Outside: Net<Listener = TcpListener, Stream = TcpStream>
    + AllocGlobal
    + Clock
    + Eprint
    + RandomSource
    + Wait
    + Copy
    + Drop {}

impl<
    R: Net<Listener = TcpListener, Stream = TcpStream>
        + AllocGlobal
        + Clock
        + Eprint
        + RandomSource
        + Wait
        + Copy
        + Drop,
> Outside for R {}
