// The head of a message, as a value.
ghost use Rattle.std.specs.Prelude.{◌≡◌};
ghost use Rattle.http_heads.specs.declared.message.HeadError.TheVariants.{NoMemory};

use crate::Fields;
use std::alloc::{AllocError, Global};
use std::error::Error;
use std::fmt::{self, Display, Formatter, Write};
use units::{Copied, Text};

/// The head of a request.
#[derive(Drop)]
pub struct RequestHead {
    pub method: Text,
    /// The target as it stands in the request line.
    pub url: Text,
    /// 10 for HTTP/1.0, 11 for HTTP/1.1.
    pub version: u8,
    pub fields: Fields,
}

/// The head of a response.
#[derive(Drop)]
pub struct ResponseHead {
    /// 10 for HTTP/1.0, 11 for HTTP/1.1.
    pub version: u8,
    pub status: u16,
    /// The reason phrase, which may be empty.
    pub reason: Text,
    pub fields: Fields,
}

impl Copied for RequestHead {
    fn copied(&self, alloc: Global) -> Result<Self, AllocError> {
        Ok(RequestHead {
            method: self.method.copy()?,
            url: self.url.copy()?,
            version: self.version,
            fields: self.fields.copied(alloc)?,
        })
    }
}

impl Copied for ResponseHead {
    fn copied(&self, alloc: Global) -> Result<Self, AllocError> {
        Ok(ResponseHead {
            version: self.version,
            status: self.status,
            reason: self.reason.copy()?,
            fields: self.fields.copied(alloc)?,
        })
    }
}

/// Why bytes are refused as a head.
#[derive(Clone, Copy, Debug, PartialEq, Eq)]
pub enum HeadError {
    /// No bytes that could follow make a head.
    Bad,
    /// 32,768 bytes hold no head.
    TooLong,
    /// The start line and 65 lines behind it have come, none of them empty.
    TooMany,
    NoMemory,
}

impl From<AllocError> for HeadError {
    ghost from_gives = { λ _ e. e ≡ NoMemory };

    fn from(_: AllocError) -> HeadError {
        HeadError::NoMemory
    }
}

impl Display for HeadError {
    fn fmt<W: Write>(&self, f: &mut Formatter<W>) -> fmt::Result {
        f.write_str(match self {
            HeadError::Bad => "the bytes are no head",
            HeadError::TooLong => "the head is longer than 32768 bytes",
            HeadError::TooMany => "the head has more than 64 fields",
            HeadError::NoMemory => "out of memory",
        })
    }
}

impl Error for HeadError {}
