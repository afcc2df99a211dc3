//! The program that the scripts in bench/ run: it reads a body or a VCL text from standard input, as
//! the words say, and writes how many bytes or tokens it has. The cache has no part in it.
//!
//! The contract of the whole stands on `run`, which `main` calls with the real words, source and sink.
#![tactic(auto)]

mod count;
mod run;
mod task;

use run::{Status, run};
use std::process::ExitCode;
use system::{StreamSink, StreamSource, WordsError, read_words, tell};

const USAGE: &str = "usage: measure (bodies (chunked | sized) PIECE | tokens) < INPUT";

// How the run ends where the words can't be had.
fn status_of(error: WordsError) -> Status {
    match error {
        WordsError::Unreadable => Status::Words,
        WordsError::NoMemory => Status::NoMemory,
    }
}

// Says on standard error how a run ended that wasn't whole.
fn tell_end(rt: &HostRuntime, status: Status) {
    let message = match status {
        Status::Done => return,
        Status::Words => USAGE,
        Status::Refused => "the input is refused",
        Status::ReadFault => "reading the input failed",
        Status::WriteFault => "writing the number failed",
        Status::NoMemory => "out of memory",
    };
    tell(rt, message);
}

fn main(rt: HostRuntime) -> ExitCode {
    let status = match read_words(&rt) {
        Ok(words) => {
            let mut source = StreamSource::new(rt.stdin());
            let mut sink = StreamSink::new(rt.stdout());
            run(rt.alloc(), words.as_slice(), &mut source, &mut sink)
        }
        Err(error) => status_of(error),
    };
    tell_end(&rt, status);
    ExitCode::from(status.code())
}
