// What a call finds: a lookup in an open round, and an insertion of an open fetch.
ghost use Rattle.std.specs.Prelude.{◌≡◌, false};
ghost use Rattle.cache_law.specs.Law.{busy as busy_with, wait_in as told_to_wait};
ghost use Rattle.cache_law.specs.Lookup.{raised};
ghost use Rattle.cache_frame.specs.Asked.{found_in, is_untested, says_gone};
ghost use Rattle.cache_frame.specs.Found.{fetch_finding, finding_by, given_by as given, graced_by as graced, opens_fetch, other_finding, reply_of as reply_by, use_in as use_by};

use crate::seen::Use;
use cache_law::{Object, ObjectView, Query, Reply};
use std::mem;

#[derive(Drop)]
pub(crate) enum Finding {
    /// A fresh object.
    Hit(ObjectView),
    /// A fresh marker of either kind, and its number.
    HitMiss(u64),
    HitPass(u64),
    /// An object in grace, whose key has no open fetch.
    Grace(ObjectView),
    /// An object in grace, whose key has one.
    GraceAlone(ObjectView),
    /// An open fetch of the key.
    Wait(u64),
    /// Nothing to give, and an object that the backend may confirm, if there is one.
    Miss(Option<ObjectView>),
}

/// What was found, and the shelf's marks of the objects that its scan came to, if it was asked for one.
#[derive(Drop)]
pub(crate) struct Found<M> {
    pub finding: Finding,
    pub marks: Option<M>,
}

/// What has become of the stale object that an insertion names, if it names one.
#[derive(Clone, Copy)]
pub(crate) enum StaleObject {
    There,
    Gone,
    /// Memory was wanting for the test of it.
    Untested,
}

/// What a call asked of the shelf before anything was changed, and was told.
#[derive(Drop)]
pub(crate) enum Asked<M> {
    /// By a lookup in an open round.
    Lookup(Found<M>),
    /// By an insertion of an open fetch.
    Insert(StaleObject),
    Nothing,
}

/// What was asked by a lookup that found so.
pub(crate) fn asked_by<M>(found: Option<Found<M>>) -> Asked<M>
    ensures found { found_in result ≡ found }
    ensures tested { is_untested result ≡ false }
{
    match found {
        Some(found) => Asked::Lookup(found),
        None => Asked::Nothing,
    }
}

/// Takes what a lookup found.
pub(crate) fn taken<M: Drop>(asked: &mut Asked<M>) -> Option<Found<M>>
    ensures { result ≡ found_in asked.old }
{
    match mem::replace(asked, Asked::Nothing) {
        Asked::Lookup(found) => Some(found),
        Asked::Insert(_) | Asked::Nothing => None,
    }
}

/// Whether a stale object is gone.
pub(crate) fn says_gone<M>(asked: &Asked<M>) -> bool
    ensures { result ≡ says_gone asked.now }
{
    matches!(asked, Asked::Insert(StaleObject::Gone))
}

/// Whether a stale object couldn't be tested.
pub(crate) fn is_untested<M>(asked: &Asked<M>) -> bool
    ensures { result ≡ is_untested asked.now }
{
    matches!(asked, Asked::Insert(StaleObject::Untested))
}

/// What a fresh object gives: itself, or what it is a marker of.
fn fresh_finding(view: ObjectView) -> Finding
    ensures { result ≡ given view view.object }
{
    let found = match &*view.object {
        Object::Ordinary(_) => None,
        Object::HitForMiss(_) => Some(Finding::HitMiss(view.number)),
        Object::HitForPass(_) => Some(Finding::HitPass(view.number)),
    };
    match found {
        Some(marked) => marked,
        None => Finding::Hit(view),
    }
}

fn graced_by(view: ObjectView, under_way: Option<u64>) -> Finding
    ensures { result ≡ graced view under_way }
{
    match under_way {
        Some(_) => Finding::GraceAlone(view),
        None => Finding::Grace(view),
    }
}

/// The open fetch that the lookup waits for, if it doesn't ignore them.
fn busy(query: &Query, under_way: Option<u64>) -> Option<u64>
    ensures { result ≡ busy_with query.now under_way }
{
    if query.options.ignore_busy {
        None
    } else {
        under_way
    }
}

fn fetch_finding(stale: Option<ObjectView>, under_way: Option<u64>) -> Finding
    ensures { result ≡ fetch_finding stale under_way }
{
    match under_way {
        Some(token) => Finding::Wait(token),
        None => Finding::Miss(stale),
    }
}

fn other_finding(
    query: &Query,
    under_way: Option<u64>,
    grace: Option<ObjectView>,
    stale: Option<ObjectView>,
) -> Finding
    ensures { result ≡ other_finding query.now under_way grace stale }
{
    match grace {
        Some(view) => graced_by(view, under_way),
        None => fetch_finding(stale, busy(query, under_way)),
    }
}

/// What is found by a scan's fresh object, the one in grace and the one that the backend may confirm.
pub(crate) fn finding_by(
    query: &Query,
    under_way: Option<u64>,
    fresh: Option<ObjectView>,
    grace: Option<ObjectView>,
    stale: Option<ObjectView>,
) -> Finding
    ensures { result ≡ finding_by query.now under_way fresh grace stale }
{
    match fresh {
        Some(view) => fresh_finding(view),
        None => other_finding(query, under_way, grace, stale),
    }
}

/// Whether what was found opens a fetch.
pub(crate) fn opens_fetch(found: &Finding) -> bool
    ensures { result ≡ opens_fetch found.now }
{
    match found {
        Finding::Hit(_) | Finding::HitPass(_) => false,
        Finding::GraceAlone(_) | Finding::Wait(_) => false,
        Finding::HitMiss(_) | Finding::Grace(_) | Finding::Miss(_) => true,
    }
}

/// What is used.
pub(crate) fn use_in(found: &Finding) -> Use
    ensures { result ≡ use_by found.now }
{
    match found {
        Finding::Hit(view) | Finding::Grace(view) | Finding::GraceAlone(view) => {
            Use::Hit(view.number)
        }
        Finding::HitMiss(number) | Finding::HitPass(number) => Use::Marker(*number),
        Finding::Wait(_) | Finding::Miss(_) => Use::Nothing,
    }
}

/// The view with one more hit.
fn raised(view: ObjectView) -> ObjectView
    ensures { result ≡ raised view }
{
    ObjectView {
        number: view.number,
        hits: view.hits.saturating_add(1),
        object: view.object,
    }
}

/// The reply to a lookup that found so, where the next number is this.
pub(crate) fn reply_of(token: u64, finding: Finding) -> Reply
    ensures { result ≡ reply_by token finding }
{
    match finding {
        Finding::Hit(view) => Reply::Hit(raised(view)),
        Finding::HitMiss(_) => Reply::HitMiss { token },
        Finding::HitPass(_) => Reply::HitPass,
        Finding::Grace(view) => Reply::Grace {
            object: raised(view),
            token: Some(token),
        },
        Finding::GraceAlone(view) => Reply::Grace {
            object: raised(view),
            token: None,
        },
        Finding::Wait(token) => Reply::Wait(token),
        Finding::Miss(stale) => Reply::Miss { token, stale },
    }
}

/// The token that a reply tells its caller to wait for.
pub(crate) fn wait_in(reply: &Reply) -> Option<u64>
    ensures { result ≡ told_to_wait reply.now }
{
    match reply {
        Reply::Wait(token) => Some(*token),
        _ => None,
    }
}
