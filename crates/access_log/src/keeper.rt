// The thread that writes a log's file.

use crate::AccessLog;
use std::alloc::Global;
use std::fs::OpenOptions;
use std::io::{self, ErrorKind, Write};
use std::rt::{Clock, Files};
use std::sync::{Arc, Wait};
use std::thread::{self, Threads};
use units::Text;

// Puts bytes behind what the file has. It is opened anew each time, so it may be renamed at any moment.
fn append<R: Files>(rt: &R, name: &Text, bytes: &[u8]) -> io::Result<()> {
    let name = str::from_utf8(name.bytes()).map_err(|_| io::Error::from(ErrorKind::InvalidInput))?;
    let mut options = OpenOptions::new();
    options.append(true).create(true);
    let mut file = options.open(rt, name)?;
    file.write_all(bytes)
}

// Says once that lines are lost, and once that they are written again.
fn tell_loss<R: Eprint>(rt: &R, is_lossy: bool, was_lossy: bool) {
    if is_lossy && !was_lossy {
        let _ = rt.eprintln("the access log can't be written: lines of it are lost");
    }
    if !is_lossy && was_lossy {
        let _ = rt.eprintln("the access log is written again");
    }
}

// Writes what comes, until no more is to come. The file is opened first without any line, so that it shows early that it can't be.
fn keep<R: Files + AllocGlobal + Clock + Eprint + Wait + Drop>(
    rt: R,
    log: &AccessLog,
    name: &Text,
) {
    let mut was_lossy = append(&rt, name, b"").is_err();
    tell_loss(&rt, was_lossy, false);
    for _ in rt.forever() {
        let (batch, is_last) = log.next(&rt, rt.alloc());
        if !batch.bytes.is_empty() || batch.lost > 0 {
            let is_written = append(&rt, name, batch.bytes.as_slice()).is_ok();
            let is_lossy = !is_written || batch.lost > 0;
            tell_loss(&rt, is_lossy, was_lossy);
            was_lossy = is_lossy;
        }
        if is_last {
            break;
        }
    }
    log.finish(&rt);
}

/// A log whose lines go behind those of the file of this name, by a thread of its own, each second.
pub fn begin_log<R>(rt: &R, name: Text) -> io::Result<Arc<AccessLog, Global>>
where
    R: Files + AllocGlobal + Clock + Eprint + Wait + Threads + Copy + Drop + Send + 'static,
    <R as Files>::File: Send,
    <R as Files>::Dir: Send,
{
    let alloc = rt.alloc();
    let log = Arc::new(alloc, AccessLog::new(alloc))?;
    let (outside, theirs) = (*rt, Arc::try_clone(&log)?);
    match thread::spawn(rt, move || keep(outside, &theirs, &name)) {
        Ok(_) => Ok(log),
        Err(_) => Err(io::Error::from(ErrorKind::OutOfMemory)),
    }
}
