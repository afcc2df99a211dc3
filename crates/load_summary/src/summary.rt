// Counts over what a load left.
ghost use Rattle.std.specs.Prelude.{◌≡◌, sum};
ghost use Rattle.load_summary.specs.Counts.{summary_of};

use crate::entries::{bans_in, hits_in, misses_in, requests_in, waits_in};
use crate::responses::{of_200_in, of_others_in};
use cache_law::Entry;

/// What a load came to.
#[derive(Clone, Copy, Debug, PartialEq, Eq)]
pub struct Summary {
    pub steps: u32,
    /// Rounds that began.
    pub requests: usize,
    /// Lookups that found an object, in grace or before.
    pub hits: usize,
    /// Lookups that opened a fetch.
    pub misses: usize,
    /// Lookups that were told to wait for another's fetch.
    pub waits: usize,
    pub bans: usize,
    /// Objects that the lurker tested.
    pub swept: u128,
    /// Responses with the status 200, and those with another.
    pub of_200: usize,
    pub of_others: usize,
}

fn total(swept: &[u32]) -> u128
    ensures { result ≡ sum swept.now }
{
    swept.iter().map(|count| u128::from(*count)).sum()
}

/// What so many steps came to that led to this history, these numbers of the lurker and this transcript.
pub fn summarize(steps: u32, history: &[Entry], swept: &[u32], transcript: &[u8]) -> Summary
    ensures { result ≡ summary_of steps history.now swept.now transcript.now }
{
    Summary {
        steps,
        requests: requests_in(history),
        hits: hits_in(history),
        misses: misses_in(history),
        waits: waits_in(history),
        bans: bans_in(history),
        swept: total(swept),
        of_200: of_200_in(transcript),
        of_others: of_others_in(transcript),
    }
}
