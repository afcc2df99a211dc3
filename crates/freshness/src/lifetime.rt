// How long a response serves.
ghost use Rattle.std.specs.Prelude.{◌≡◌, ◌<◌, ◌≤◌, ◌||◌, IfSome};
ghost use Rattle.std.specs.Option.{ForSome, option_map_or};
ghost use Rattle.httpdate.specs.Date.{parse_secs};
ghost use Rattle.freshness.specs.Directives.{most_seconds};
ghost use Rattle.freshness.specs.Timing.{timing_of, age as age_of, date as date_of, made as made_in, by_expires as expiry, lifetime as lifetime_of, fresh_for as fresh, in_grace_for as graced, kept_for as kept, cacheable_by_default, cacheable_if_said, is_among, last_moment, millis as millis_of};

use crate::directives::{directive, seconds};
use crate::times::{Defaults, Timing};
use http_heads::Fields;
use httpdate::HttpDate;

// The last millisecond of the year 9999, which is the greatest moment.
const LAST_MOMENT: u64 = 253_402_300_799_999;

/// How long a response serves that came at the moment, in milliseconds since 1970 (RFC 9111, section 4.2). A moment
/// behind the year 9999 counts as its end, and a number of seconds over 1,000,000,000 as that.
pub fn timing(status: u16, fields: &Fields, moment: u64, defaults: Defaults) -> Timing
    ensures { result ≡ timing_of status fields.now moment defaults }
{
    let moment = moment.min(LAST_MOMENT);
    Timing {
        origin: moment as i64 - millis(age(fields)),
        ttl: fresh_for(status, lifetime(fields, moment), defaults),
        grace: in_grace_for(status, fields, defaults),
        keep: kept_for(status, defaults),
    }
}

fn millis(seconds: u64) -> i64
    requires { seconds ≤ 253402300799 }
    ensures { result ≡ millis_of seconds }
{
    (1000 * seconds) as i64
}

fn age(fields: &Fields) -> u64
    ensures value { result ≡ age_of fields.now }
    ensures bound { result ≤ most_seconds }
{
    match fields.first(b"age") {
        Some(text) => seconds(text.bytes()).unwrap_or(0),
        None => 0,
    }
}

/// The second since 1970 that the first field of the name shows, in one of the three forms of a date.
pub fn date(fields: &Fields, name: &[u8]) -> Option<u64>
    ensures value { result ≡ date_of name.now fields.now }
    ensures bound { IfSome result (λ second. second ≤ 253402300799) }
{
    second_of(fields.first(name)?.bytes())
}

fn second_of(text: &[u8]) -> Option<u64>
    ensures value { result ≡ parse_secs text.now }
    ensures bound { IfSome result (λ second. second ≤ 253402300799) }
{
    match HttpDate::parse_ascii(text) {
        Ok(date) => Some(date.unix_secs()),
        Err(_) => None,
    }
}

fn made(fields: &Fields, moment: u64) -> u64
    ensures { result ≡ made_in moment fields.now }
{
    date(fields, b"date").unwrap_or(moment / 1000)
}

fn by_expires(fields: &Fields, moment: u64) -> Option<u64>
    ensures value { result ≡ expiry moment fields.now }
    ensures bound { IfSome result (λ seconds. seconds ≤ 253402300799) }
{
    let text = fields.first(b"expires")?;
    match second_of(text.bytes()) {
        Some(end) => Some(end.saturating_sub(made(fields, moment))),
        None => Some(0),
    }
}

fn lifetime(fields: &Fields, moment: u64) -> Option<u64>
    ensures value { result ≡ lifetime_of moment fields.now }
    ensures bound { IfSome result (λ seconds. seconds ≤ 253402300799) }
{
    if let Some(seconds) = directive(fields, b"s-maxage") {
        return Some(seconds);
    }
    if let Some(seconds) = directive(fields, b"max-age") {
        return Some(seconds);
    }
    by_expires(fields, moment)
}

fn is_lasting(status: u16) -> bool
    ensures { result ≡ is_among cacheable_by_default status }
{
    matches!(status, 200 | 203 | 204 | 300 | 301 | 404 | 410 | 414)
}

fn is_passing(status: u16) -> bool
    ensures { result ≡ is_among cacheable_if_said status }
{
    matches!(status, 302 | 307)
}

fn serves(status: u16) -> bool
    ensures { result ≡ (is_among cacheable_by_default status || is_among cacheable_if_said status) }
{
    is_lasting(status) || is_passing(status)
}

fn millis_or(seconds: Option<u64>, other: i64) -> i64
    requires { ForSome seconds (λ n. n ≤ 253402300799) }
    ensures { result ≡ option_map_or millis_of seconds other }
{
    match seconds {
        Some(seconds) => millis(seconds),
        None => other,
    }
}

fn fresh_for(status: u16, said: Option<u64>, defaults: Defaults) -> i64
    requires { ForSome said (λ n. n ≤ 253402300799) }
    ensures { result ≡ fresh status said defaults }
{
    if is_lasting(status) {
        millis_or(said, defaults.ttl)
    } else if is_passing(status) {
        millis_or(said, 0)
    } else {
        0
    }
}

fn in_grace_for(status: u16, fields: &Fields, defaults: Defaults) -> i64
    ensures { result ≡ graced status fields.now defaults }
{
    if serves(status) {
        millis_or(directive(fields, b"stale-while-revalidate"), defaults.grace)
    } else {
        0
    }
}

fn kept_for(status: u16, defaults: Defaults) -> i64
    ensures { result ≡ kept status defaults }
{
    if serves(status) { defaults.keep } else { 0 }
}
