// Entries of a history, counted.
ghost use Rattle.std.specs.Prelude.{◌≡◌, count_by};
ghost use Rattle.load_summary.specs.Counts.{is_ban as bans, is_hit as hits, is_miss as misses, is_request as requests, is_wait as waits};

use cache_law::{Call, Entry, Reply};

#[tactic(auto, unfolding(crate::specs::Counts::is_request))]
fn is_request(entry: &Entry) -> bool
    ensures { result ≡ requests entry.now }
{
    matches!(entry.reply, Reply::Began { .. })
}

#[tactic(auto, unfolding(crate::specs::Counts::is_hit))]
fn is_hit(entry: &Entry) -> bool
    ensures { result ≡ hits entry.now }
{
    matches!(entry.reply, Reply::Hit(_) | Reply::Grace { .. })
}

#[tactic(auto, unfolding(crate::specs::Counts::is_miss))]
fn is_miss(entry: &Entry) -> bool
    ensures { result ≡ misses entry.now }
{
    matches!(entry.reply, Reply::Miss { .. })
}

#[tactic(auto, unfolding(crate::specs::Counts::is_wait))]
fn is_wait(entry: &Entry) -> bool
    ensures { result ≡ waits entry.now }
{
    matches!(entry.reply, Reply::Wait(_))
}

#[tactic(auto, unfolding(crate::specs::Counts::is_ban))]
fn is_ban(entry: &Entry) -> bool
    ensures { result ≡ bans entry.now }
{
    matches!(entry.call, Call::Ban(_))
}

pub(crate) fn requests_in(history: &[Entry]) -> usize
    ensures { result ≡ count_by requests history.now }
{
    history.iter().filter(|entry| is_request(entry)).count()
}

pub(crate) fn hits_in(history: &[Entry]) -> usize
    ensures { result ≡ count_by hits history.now }
{
    history.iter().filter(|entry| is_hit(entry)).count()
}

pub(crate) fn misses_in(history: &[Entry]) -> usize
    ensures { result ≡ count_by misses history.now }
{
    history.iter().filter(|entry| is_miss(entry)).count()
}

pub(crate) fn waits_in(history: &[Entry]) -> usize
    ensures { result ≡ count_by waits history.now }
{
    history.iter().filter(|entry| is_wait(entry)).count()
}

pub(crate) fn bans_in(history: &[Entry]) -> usize
    ensures { result ≡ count_by bans history.now }
{
    history.iter().filter(|entry| is_ban(entry)).count()
}
