//! The outside as the system has it: sockets, files, streams, the clock and the words of the command line.
//!
//! Contract for the layer above: each is one of the traits of `wire` and `world`, and keeps its clauses. A count of faults rises
//! where the system fails; nothing is told of what went over a socket, a file or a stream, since no clause can name that.
#![tactic(auto)]

mod backend_link;
mod backends;
mod command_line;
mod console_listener;
mod console_stream;
mod console_world;
mod earlier_journals;
mod end_sign;
mod journal_file;
mod kept_streams;
mod known_names;
mod no_dialer;
mod stream;
mod system_clock;
mod system_shelf;
mod system_world;
mod tcp_dialer;
mod tcp_link;

pub use backend_link::BackendLink;
pub use backends::{Backends, begin_backends};
pub use command_line::{WordsError, read_words};
pub use console_listener::ConsoleListener;
pub use console_stream::ConsoleLink;
pub use console_world::ConsoleWorld;
pub use edge::{Outside, PortLink, PortListener, tell};
pub use end_sign::EndSign;
pub use journal_file::JournalFile;
pub use no_dialer::NoDialer;
pub use stream::{StreamSink, StreamSource};
pub use system_clock::SystemClock;
pub use system_shelf::SystemShelf;
pub use system_world::SystemWorld;
pub use tcp_dialer::TcpDialer;
pub use tcp_link::TcpLink;
