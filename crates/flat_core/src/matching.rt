// What a lookup sees in an object.
ghost use Rattle.std.specs.Prelude.{◌≡◌, ◌&&◌, IfOk};
ghost use Rattle.std.specs.List.{list_any};
ghost use Rattle.cache_law.specs.Object.{in_time, key_of, same_texts};
ghost use Rattle.flat_core.specs.StoredObject.{since};
ghost use Rattle.flat_core.specs.Scans.{fate_of, fit_sight as fits_so, is_end, is_struck, sight_of as seen_in, tested_fate as fate_tested};

use crate::stored_ban::StoredBan;
use crate::stored_object::{Fate, StoredObject};
use cache_law::{Object, Query, RequestView, is_chosen_by, is_fresh_for, is_in_time};
use std::alloc::{AllocError, Global};
use std::collections::VecDeque;

#[derive(Clone, Copy, Debug)]
pub(crate) enum LookupMatch {
    /// It isn't in time, or has another key.
    Other,
    /// A ban that waited for it matches it with the request.
    Banned,
    /// It doesn't answer the request.
    Unfit,
    /// It isn't fresh.
    Aged,
    Fresh,
}

/// Whether the object is in time at the moment and of the lookup's key.
fn is_ours(moment: u64, query: &Query, object: &Object) -> bool
    ensures { result ≡ (in_time moment object.now && same_texts (key_of object.now) query.now.key) }
{
    is_in_time(moment, object) && object.key() == query.key.as_slice()
}

/// Whether the ban waits for lookups and matches the object with the request.
fn matches_request_ban(
    alloc: Global,
    ban: &StoredBan,
    object: &Object,
    request: &RequestView,
) -> Result<bool, AllocError>
    ensures { IfOk result (λ matches. matches ≡ is_struck object.now request.now ban.now) }
{
    if !ban.is_waiting() {
        return Ok(false);
    }
    ban.meets(alloc, object, request)
}

/// Whether a ban that waits for the object matches it with the request.
fn is_banned(
    alloc: Global,
    bans: &VecDeque<StoredBan>,
    kept: &StoredObject,
    request: &RequestView,
) -> Result<bool, AllocError>
    ensures { IfOk result (λ met. met ≡ list_any (is_struck kept.now.view.object request.now) (since kept.now.tested bans.now.items)) }
{
    for place in 0..bans.len() {
        let ban = &bans[place];
        if ban.number() <= kept.tested {
            return Ok(false);
        }
        if matches_request_ban(alloc, ban, &kept.view.object, request)? {
            return Ok(true);
        }
    }
    Ok(false)
}

fn fit_sight(moment: u64, query: &Query, object: &Object) -> LookupMatch
    ensures { result ≡ fits_so moment query.now object.now }
{
    if !is_chosen_by(query, object) {
        return LookupMatch::Unfit;
    }
    if is_fresh_for(moment, &query.options, object) {
        LookupMatch::Fresh
    } else {
        LookupMatch::Aged
    }
}

/// What the lookup sees in the object.
pub(crate) fn sight_of(
    alloc: Global,
    moment: u64,
    query: &Query,
    bans: &VecDeque<StoredBan>,
    kept: &StoredObject,
) -> Result<LookupMatch, AllocError>
    ensures { IfOk result (λ sight. sight ≡ seen_in moment query.now bans.now.items kept.now) }
{
    let object = &kept.view.object;
    if !is_ours(moment, query, object) {
        return Ok(LookupMatch::Other);
    }
    if is_banned(alloc, bans, kept, &query.request)? {
        return Ok(LookupMatch::Banned);
    }
    Ok(fit_sight(moment, query, object))
}

/// Whether a scan ends at an object in which the lookup sees this.
pub(crate) fn is_end(sight: LookupMatch) -> bool
    ensures { result ≡ is_end sight }
{
    match sight {
        LookupMatch::Fresh => true,
        LookupMatch::Other | LookupMatch::Banned | LookupMatch::Unfit | LookupMatch::Aged => false,
    }
}

/// What becomes of an object that no ban matched, where so many bans were issued.
fn tested_fate(count: u64, kept: &StoredObject) -> Fate
    ensures { result ≡ fate_tested count kept.now }
{
    if kept.tested == count {
        Fate::Stays
    } else {
        Fate::Tested
    }
}

/// What becomes of the object in which the lookup sees this, where so many bans were issued.
pub(crate) fn fate_of(count: u64, sight: LookupMatch, kept: &StoredObject) -> Fate
    ensures { result ≡ fate_of count sight kept.now }
{
    match sight {
        LookupMatch::Other => Fate::Stays,
        LookupMatch::Banned => Fate::Goes,
        LookupMatch::Unfit | LookupMatch::Aged | LookupMatch::Fresh => tested_fate(count, kept),
    }
}
