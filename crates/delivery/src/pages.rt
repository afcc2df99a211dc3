// Why a response comes that VCL didn't ask for, and the one that no VCL has a part in.
ghost use Rattle.std.specs.Prelude.{◌≡◌, IfOk};
ghost use Rattle.delivery.specs.Pages.{reason_of, failed};

use crate::Delivery;
use http_heads::{Fields, ResponseHead, with_field};
use std::alloc::{AllocError, Global};
use units::Text;

/// Why a response with status 503 comes that VCL didn't ask for.
#[derive(Clone, Copy, Debug, PartialEq, Eq)]
pub enum Failure {
    /// A fifth restart.
    TooManyRestarts,
    /// A subroutine failed.
    VclFailed,
    /// A fetch gave no response, or none could be had of a backend.
    FetchFailed,
}

impl Failure {
    /// The status of each of them.
    pub const STATUS: u16 = 503;

    pub fn reason(self) -> &'static [u8]
        ensures { result.now ≡ reason_of self }
    {
        match self {
            Failure::TooManyRestarts => b"Too many restarts",
            Failure::VclFailed => b"VCL failed",
            Failure::FetchFailed => b"Backend fetch failed",
        }
    }
}

/// The response where vcl_synth fails, or restarts too often: without a body, and the connection is closed behind it.
pub fn failure_page(alloc: Global) -> Result<Delivery, AllocError>
    ensures { IfOk result (λ sent. sent ≡ failed) }
{
    let fields = with_field(alloc, Fields::new(alloc), b"Content-Length", b"0")?;
    let head = ResponseHead {
        version: 11,
        status: Failure::STATUS,
        reason: Text::of(alloc, Failure::VclFailed.reason())?,
        fields: with_field(alloc, fields, b"Connection", b"close")?,
    };
    let body = Text::of(alloc, b"")?;
    Ok(Delivery { head, body })
}
