// How long a fetched response serves, and the response of the error state.
ghost use Rattle.std.specs.Prelude.{◌≡◌, IfOk};
ghost use Rattle.backend_request.specs.Timed.{defaults, timed as timing_for, error_head as head_of_error};

use crate::Purpose;
use freshness::{Defaults, Timing, timing};
use http_heads::{Fields, ResponseHead};
use std::alloc::Global;
use units::Text;

/// What counts where a response says nothing, in milliseconds.
pub const DEFAULTS: Defaults = Defaults {
    ttl: 120_000,
    grace: 10_000,
    keep: 0,
};

/// How long a response serves that came at the moment, in milliseconds since 1970. What is passed serves once.
pub fn timed(purpose: Purpose, status: u16, fields: &Fields, moment: u64) -> Timing
    ensures { result ≡ timing_for purpose status fields.now moment }
{
    let times = timing(status, fields, moment, DEFAULTS);
    match purpose {
        Purpose::Store => times,
        Purpose::Pass => Timing {
            origin: times.origin,
            ttl: 0,
            grace: 0,
            keep: 0,
        },
    }
}

/// The response that vcl_backend_error begins with. Its body is empty.
pub fn error_head(alloc: Global, status: u16, reason: Text) -> ResponseHead
    ensures { result ≡ head_of_error status reason }
{
    ResponseHead {
        version: 11,
        status,
        reason,
        fields: Fields::new(alloc),
    }
}
