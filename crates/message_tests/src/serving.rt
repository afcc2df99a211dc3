// How long a response serves, and whether it is unchanged.
use crate::heads::lines_of;
use freshness::{Defaults, Timing, not_modified, revalidatable, timing};
use std::alloc::{AllocError, Global};

/// Origin, ttl, grace and keep of a response with this status and these fields at this moment.
pub fn timing_shown(alloc: Global, row: &str) -> Result<String, AllocError> {
    let (status, rest) = row.split_once(' ').unwrap_or((row, ""));
    let (moment, lines) = rest.split_once(' ').unwrap_or((rest, ""));
    let status = status.parse::<u16>().unwrap_or(1);
    let moment = moment.parse::<u64>().unwrap_or(1);
    let defaults = Defaults {
        ttl: 120_000,
        grace: 10_000,
        keep: 5_000,
    };
    let fields = lines_of(alloc, lines)?;
    let Timing {
        origin,
        ttl,
        grace,
        keep,
    } = timing(status, &fields, moment, defaults);
    format!(in alloc; "{origin} {ttl} {grace} {keep}")
}

/// Whether a response is unchanged for a request.
pub fn unchanged_shown(alloc: Global, row: &str) -> Result<String, AllocError> {
    let (request, response) = row.split_once('|').unwrap_or((row, ""));
    let asked = lines_of(alloc, request)?;
    let found = lines_of(alloc, response)?;
    let is_unchanged = not_modified(&asked, &found);
    format!(in alloc; "{is_unchanged}")
}

/// Whether a response of this status can be asked for again with a condition.
pub fn kept_shown(alloc: Global, row: &str) -> Result<String, AllocError> {
    let (status, lines) = row.split_once(' ').unwrap_or((row, ""));
    let fields = lines_of(alloc, lines)?;
    let is_kept = revalidatable(status.parse::<u16>().unwrap_or(1), &fields);
    format!(in alloc; "{is_kept}")
}
