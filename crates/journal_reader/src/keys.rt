// What keys name.
ghost use Rattle.std.specs.Prelude.{◌≡◌};
ghost use Rattle.journal_reader.specs.Reading.{health_of as health_named, kind_of as kind_named, mark_of as mark_named, numbered_kind_of as numbered_named, object_kind_of as object_named, plain_call_of as plain_call_named, plain_of as plain_named, refusal_of as refusal_named, state_of as state_named};

use cache_law::{Call, Health, VclState};
use directors::DirectorKind;
use journal_text::{Line, Shown};

/// What an object is, by its key.
#[derive(Clone, Copy, Debug)]
pub(crate) enum ObjectKind {
    OfResponse,
    OfMiss,
    OfPass,
}

/// A reply that says one number.
#[derive(Clone, Copy, Debug)]
pub(crate) enum NumberedReply {
    Drawn,
    Hit,
    HitMiss,
    Wait,
    Stored,
    Purged,
}

#[tactic(auto, unfolding(crate::specs::Reading::kind_of))]
pub(crate) fn kind_of(key: &[u8]) -> Option<DirectorKind>
    ensures { result ≡ kind_named key.now }
{
    if key == b"one".as_slice() {
        Some(DirectorKind::One)
    } else if key == b"round_robin".as_slice() {
        Some(DirectorKind::RoundRobin)
    } else if key == b"fallback".as_slice() {
        Some(DirectorKind::Fallback)
    } else if key == b"random".as_slice() {
        Some(DirectorKind::Random)
    } else if key == b"hash".as_slice() {
        Some(DirectorKind::Hash)
    } else {
        None
    }
}

#[tactic(auto, unfolding(crate::specs::Reading::object_kind_of))]
pub(crate) fn object_kind_of(key: &[u8]) -> Option<ObjectKind>
    ensures { result ≡ object_named key.now }
{
    if key == b"o".as_slice() {
        Some(ObjectKind::OfResponse)
    } else if key == b"m".as_slice() {
        Some(ObjectKind::OfMiss)
    } else if key == b"p".as_slice() {
        Some(ObjectKind::OfPass)
    } else {
        None
    }
}

#[tactic(auto, unfolding(crate::specs::Reading::health_of))]
pub(crate) fn health_of(key: &[u8]) -> Option<Health>
    ensures { result ≡ health_named key.now }
{
    if key == b"auto".as_slice() {
        Some(Health::Auto)
    } else if key == b"healthy".as_slice() {
        Some(Health::Healthy)
    } else if key == b"sick".as_slice() {
        Some(Health::Sick)
    } else {
        None
    }
}

#[tactic(auto, unfolding(crate::specs::Reading::state_of))]
pub(crate) fn state_of(key: &[u8]) -> Option<VclState>
    ensures { result ≡ state_named key.now }
{
    if key == b"active".as_slice() {
        Some(VclState::Active)
    } else if key == b"available".as_slice() {
        Some(VclState::Available)
    } else if key == b"discarded".as_slice() {
        Some(VclState::Discarded)
    } else {
        None
    }
}

/// The calls that say nothing but their names.
#[tactic(auto, unfolding(crate::specs::Reading::plain_call_of))]
pub(crate) fn plain_call_of(key: &[u8]) -> Option<Call>
    ensures { result ≡ plain_call_named key.now }
{
    if key == b"begin".as_slice() {
        Some(Call::Begin)
    } else if key == b"draw".as_slice() {
        Some(Call::Draw)
    } else if key == b"banlist".as_slice() {
        Some(Call::BanList)
    } else if key == b"vcls".as_slice() {
        Some(Call::VclList)
    } else if key == b"end".as_slice() {
        Some(Call::End)
    } else {
        None
    }
}

#[tactic(auto, unfolding(crate::specs::Reading::numbered_kind_of))]
pub(crate) fn numbered_kind_of(key: &[u8]) -> Option<NumberedReply>
    ensures { result ≡ numbered_named key.now }
{
    if key == b"drawn".as_slice() {
        Some(NumberedReply::Drawn)
    } else if key == b"hit".as_slice() {
        Some(NumberedReply::Hit)
    } else if key == b"hitmiss".as_slice() {
        Some(NumberedReply::HitMiss)
    } else if key == b"wait".as_slice() {
        Some(NumberedReply::Wait)
    } else if key == b"stored".as_slice() {
        Some(NumberedReply::Stored)
    } else if key == b"purged".as_slice() {
        Some(NumberedReply::Purged)
    } else {
        None
    }
}

#[tactic(auto, unfolding(crate::specs::Reading::refusal_of))]
fn refusal_of(key: &[u8]) -> Option<Shown>
    ensures { result ≡ refusal_named key.now }
{
    if key == b"noround".as_slice() {
        Some(Shown::NoRound)
    } else if key == b"notopen".as_slice() {
        Some(Shown::NotOpen)
    } else if key == b"stalegone".as_slice() {
        Some(Shown::StaleGone)
    } else if key == b"notintime".as_slice() {
        Some(Shown::NotInTime)
    } else if key == b"noroom".as_slice() {
        Some(Shown::NoRoom)
    } else if key == b"refused".as_slice() {
        Some(Shown::Refused)
    } else if key == b"nametaken".as_slice() {
        Some(Shown::NameTaken)
    } else if key == b"novcl".as_slice() {
        Some(Shown::NoVcl)
    } else {
        None
    }
}

/// The replies that say nothing but their names.
#[tactic(auto, unfolding(crate::specs::Reading::plain_of))]
pub(crate) fn plain_of(key: &[u8]) -> Option<Shown>
    ensures { result ≡ plain_named key.now }
{
    if key == b"hitpass".as_slice() {
        Some(Shown::HitPass)
    } else if key == b"banned".as_slice() {
        Some(Shown::Banned)
    } else if key == b"switched".as_slice() {
        Some(Shown::Switched)
    } else if key == b"discarded".as_slice() {
        Some(Shown::Discarded)
    } else if key == b"isactive".as_slice() {
        Some(Shown::IsActive)
    } else if key == b"dropped".as_slice() {
        Some(Shown::Dropped)
    } else if key == b"ended".as_slice() {
        Some(Shown::Ended)
    } else {
        refusal_of(key)
    }
}

/// The lines that end a segment.
#[tactic(auto, unfolding(crate::specs::Reading::mark_of))]
pub(crate) fn mark_of(key: &[u8]) -> Option<Line>
    ensures { result ≡ mark_named key.now }
{
    if key == b"cut".as_slice() {
        Some(Line::Cut)
    } else if key == b"close".as_slice() {
        Some(Line::Close)
    } else {
        None
    }
}
