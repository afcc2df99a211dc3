// Why a part of a message wasn't read.
ghost use Rattle.std.specs.Prelude.{◌≡◌};
ghost use Rattle.message_reader.specs.declared.stop.Stop.TheVariants.{NoMemory};
ghost use Rattle.message_reader.specs.Causes.{head_stop, body_stop};

use http_bodies::BodyError;
use http_heads::HeadError;
use std::alloc::AllocError;
use std::error::Error;
use std::fmt::{self, Display, Formatter, Write};

/// Why a part of a message wasn't read.
#[derive(Clone, Copy, Debug, PartialEq, Eq)]
pub enum Stop {
    /// A read failed, and the link's count of failed reads rose.
    Read,
    /// The input ends inside the part.
    Early,
    /// The input begins with no head.
    BadHead,
    /// The input begins with no body.
    BadBody,
    /// The body is longer than the limit.
    TooLarge,
    NoMemory,
}

impl From<AllocError> for Stop {
    ghost from_gives = { λ _ stop. stop ≡ NoMemory };

    fn from(_: AllocError) -> Stop {
        Stop::NoMemory
    }
}

impl Display for Stop {
    fn fmt<W: Write>(&self, f: &mut Formatter<W>) -> fmt::Result {
        f.write_str(match self {
            Stop::Read => "reading failed",
            Stop::Early => "the message isn't whole",
            Stop::BadHead => "the bytes are no head",
            Stop::BadBody => "the bytes are no body",
            Stop::TooLarge => "the body is longer than the limit",
            Stop::NoMemory => "out of memory",
        })
    }
}

impl Error for Stop {}

pub(crate) fn stop_of_head(error: HeadError) -> Stop
    ensures { result ≡ head_stop error }
{
    match error {
        HeadError::NoMemory => Stop::NoMemory,
        _ => Stop::BadHead,
    }
}

pub(crate) fn stop_of_body(error: BodyError) -> Stop
    ensures { result ≡ body_stop error }
{
    match error {
        BodyError::NoMemory => Stop::NoMemory,
        BodyError::Early => Stop::Early,
        BodyError::TooLarge => Stop::TooLarge,
        _ => Stop::BadBody,
    }
}
