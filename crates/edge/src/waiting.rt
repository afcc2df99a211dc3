// Waits for what comes at a socket, and for room in it.
use libc::net::{POLLIN, POLLOUT, poll};
use libc::types::pollfd;
use std::os::fd::RawFd;

// Waits until one of these events comes at a socket, for so many milliseconds at most.
fn comes(socket: RawFd, events: i16, millis: u16) -> bool {
    let mut asked = [pollfd {
        fd: socket,
        events,
        revents: 0,
    }];
    poll(&mut asked, i32::from(millis)) > 0
}

/// Whether something comes at a socket in so many milliseconds: bytes, an end or a fault.
pub(crate) fn has_news(socket: RawFd, millis: u16) -> bool {
    comes(socket, POLLIN, millis)
}

/// Whether a socket takes bytes in so many milliseconds, or tells a fault.
pub(crate) fn has_room(socket: RawFd, millis: u16) -> bool {
    comes(socket, POLLOUT, millis)
}
