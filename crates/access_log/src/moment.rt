// Moments as a log has them.
ghost use Rattle.std.specs.Prelude.{◌≡◌, IfOk};
ghost use Rattle.httpdate.specs.Date.{date_text};
ghost use Rattle.access_log.specs.Moments.{IsMoment, moment_text};

use httpdate::HttpDate;
use std::alloc::{AllocError, Global};
use units::Text;

/// How many seconds behind the beginning of 1970 the last day ends that can be told, that of the year 9999.
const MOST_SECONDS: u64 = 253_402_300_799;

// The parts of a date of HTTP in the order of a log.
fn write_parts(alloc: Global, date: HttpDate) -> Result<Text, AllocError>
    ensures { IfOk result (λ text. text ≡ moment_text (date_text date)) }
{
    let text = date.to_bytes();
    let mut out = Vec::new(alloc);
    out.extend_from_slice(&text[5..7])?;
    out.push(b'/')?;
    out.extend_from_slice(&text[8..11])?;
    out.push(b'/')?;
    out.extend_from_slice(&text[12..16])?;
    out.push(b':')?;
    out.extend_from_slice(&text[17..25])?;
    out.extend_from_slice(b" +0000")?;
    Text::from_vec(out)
}

/// A moment by its seconds since the beginning of 1970, as `06/Nov/1994:08:49:37 +0000`; one behind the year 9999 is that year's last.
pub fn write_moment(alloc: Global, seconds: u64) -> Result<Text, AllocError>
    ensures { IfOk result (IsMoment seconds) }
{
    match HttpDate::from_unix_secs(seconds.min(MOST_SECONDS)) {
        Ok(date) => write_parts(alloc, date),
        Err(_) => unreachable!(),
    }
}
