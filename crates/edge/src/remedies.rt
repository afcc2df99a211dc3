// What an error of accept(2) asks for.

use libc::{EAGAIN, ECONNABORTED, ECONNRESET, EINTR, EMFILE, ENOMEM, EPERM, ETIMEDOUT};
use std::io;

// Numbers of errors that the kit's libc doesn't name.
const ENFILE: i32 = 23;

const ENONET: i32 = 64;

const EPROTO: i32 = 71;

const ENOPROTOOPT: i32 = 92;

const EOPNOTSUPP: i32 = 95;

const ENETDOWN: i32 = 100;

const ENETUNREACH: i32 = 101;

const ENOBUFS: i32 = 105;

const EHOSTDOWN: i32 = 112;

const EHOSTUNREACH: i32 = 113;

/// What an error of accept(2) asks for.
#[derive(Clone, Copy, Debug, PartialEq, Eq)]
pub(crate) enum Remedy {
    /// Nobody waits any more.
    Wait,
    /// A signal interrupted the call.
    AskAgain,
    /// One came, but the connection or its network was over before it was taken.
    PassOver,
    /// The system is short of descriptors or memory, which others may give back.
    Pause,
    /// No later call can go well.
    GiveUp,
}

/// What an error asks for, by its number; the program's own want of memory has none. The page of accept(2) names those of the network:
/// they are to be taken as if nobody had come.
pub(crate) fn remedy_for(error: &io::Error) -> Remedy {
    match error.raw_os_error() {
        None | Some(EMFILE | ENFILE | ENOBUFS | ENOMEM) => Remedy::Pause,
        Some(EAGAIN) => Remedy::Wait,
        Some(EINTR) => Remedy::AskAgain,
        Some(
            ECONNABORTED
            | ECONNRESET
            | ENETDOWN
            | ENETUNREACH
            | EHOSTDOWN
            | EHOSTUNREACH
            | ENONET
            | EPROTO
            | ENOPROTOOPT
            | EOPNOTSUPP
            | EPERM
            | ETIMEDOUT,
        ) => Remedy::PassOver,
        Some(_) => Remedy::GiveUp,
    }
}
