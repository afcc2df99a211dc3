// Objects, targets and queries.
ghost use Rattle.std.specs.Prelude.{◌≡◌, IfOk};
ghost use Rattle.journal_reader.specs.Reading.{Gives, content_at, kind_at, marker_of as marker_made, object_at, object_kind_at, object_of as object_made, options_at, query_at, source_at, target_at, timing_at, vary_at};

use crate::cursor::Cursor;
use crate::fault::{Halt, Wanted};
use crate::items::{fields, items, list, texts};
use crate::keys::{ObjectKind, kind_of, object_kind_of};
use cache_law::{
    Content, Marker, Object, Options, Query, RequestView, Response, VaryItem, VclSource,
};
use directors::{DirectorKind, Target};
use freshness::Timing;
use std::alloc::{AllocError, Global};
use units::{Sequence, Shared, Text};

#[tactic(auto, unfolding(crate::specs::Reading::kind_at))]
fn kind(cursor: &mut Cursor<'_>) -> Result<DirectorKind, Halt>
    ensures { Gives result cursor.new (kind_at cursor.old) }
{
    let found = kind_of(cursor.key());
    cursor.named(Wanted::Director, found)
}

#[tactic(auto, unfolding(crate::specs::Reading::target_at))]
pub(crate) fn target(cursor: &mut Cursor<'_>, alloc: Global) -> Result<Target, Halt>
    ensures { Gives result cursor.new (target_at cursor.old) }
{
    let kind = kind(cursor)?;
    let name = cursor.text()?;
    let members = list(cursor, alloc)?;
    Ok(Target {
        kind,
        name,
        members,
    })
}

#[tactic(auto, unfolding(crate::specs::Reading::timing_at))]
fn timing(cursor: &mut Cursor<'_>) -> Result<Timing, Halt>
    ensures { Gives result cursor.new (timing_at cursor.old) }
{
    let origin = cursor.time()?;
    let ttl = cursor.time()?;
    let grace = cursor.time()?;
    let keep = cursor.time()?;
    Ok(Timing {
        origin,
        ttl,
        grace,
        keep,
    })
}

// The fields that a response was chosen by, and whether by more than these.
#[tactic(auto, unfolding(crate::specs::Reading::vary_at))]
fn vary(cursor: &mut Cursor<'_>, alloc: Global) -> Result<(bool, Sequence<VaryItem>), Halt>
    ensures { Gives result cursor.new (vary_at cursor.old) }
{
    let (always, count) = cursor.count()?;
    let items = items(cursor, alloc, count)?;
    Ok((always, items))
}

#[tactic(auto, unfolding(crate::specs::Reading::content_at))]
fn content(cursor: &mut Cursor<'_>, alloc: Global) -> Result<Content, Halt>
    ensures { Gives result cursor.new (content_at cursor.old) }
{
    let key = texts(cursor, alloc)?;
    let (varies_always, vary) = vary(cursor, alloc)?;
    let status = cursor.short()?;
    let reason = cursor.text()?;
    let fields = fields(cursor, alloc)?;
    let body = cursor.text()?;
    Ok(Content {
        key,
        vary,
        varies_always,
        status,
        reason,
        fields,
        body,
        xkeys: Sequence::new(alloc),
    })
}

#[tactic(auto, unfolding(crate::specs::Reading::object_kind_at))]
fn object_kind(cursor: &mut Cursor<'_>) -> Result<ObjectKind, Halt>
    ensures { Gives result cursor.new (object_kind_at cursor.old) }
{
    let found = object_kind_of(cursor.key());
    cursor.named(Wanted::Object, found)
}

// What a marker keeps.
#[tactic(auto, unfolding(crate::specs::Reading::marker_of))]
fn marker_of(content: Content, timing: Timing) -> Marker
    ensures { result ≡ marker_made content timing }
{
    Marker {
        key: content.key,
        vary: content.vary,
        status: content.status,
        origin: timing.origin,
        ttl: timing.ttl,
    }
}

fn response_of(
    alloc: Global,
    mut content: Content,
    timing: Timing,
    xkeys: Sequence<Text>,
) -> Result<Response, AllocError>
    ensures { IfOk result (λ response. response ≡ record { timing = timing; content = record content { xkeys = xkeys } }) }
{
    content.xkeys = xkeys;
    Ok(Response {
        timing,
        content: Shared::new(alloc, content)?,
    })
}

#[tactic(auto, unfolding(crate::specs::Reading::object_of))]
fn object_of(
    alloc: Global,
    kind: ObjectKind,
    content: Content,
    timing: Timing,
    xkeys: Sequence<Text>,
) -> Result<Object, AllocError>
    ensures { IfOk result (λ object. object ≡ object_made kind content timing xkeys) }
{
    match kind {
        ObjectKind::OfResponse => Ok(Object::Ordinary(response_of(alloc, content, timing, xkeys)?)),
        ObjectKind::OfMiss => Ok(Object::HitForMiss(marker_of(content, timing))),
        ObjectKind::OfPass => Ok(Object::HitForPass(marker_of(content, timing))),
    }
}

#[tactic(auto, unfolding(crate::specs::Reading::object_at))]
pub(crate) fn object(cursor: &mut Cursor<'_>, alloc: Global) -> Result<Object, Halt>
    ensures { Gives result cursor.new (object_at cursor.old) }
{
    let kind = object_kind(cursor)?;
    let content = content(cursor, alloc)?;
    let timing = timing(cursor)?;
    let xkeys = texts(cursor, alloc)?;
    Ok(object_of(alloc, kind, content, timing, xkeys)?)
}

#[tactic(auto, unfolding(crate::specs::Reading::options_at))]
fn options(cursor: &mut Cursor<'_>) -> Result<Options, Halt>
    ensures { Gives result cursor.new (options_at cursor.old) }
{
    let always_miss = cursor.truth()?;
    let ignore_busy = cursor.truth()?;
    let ignore_vary = cursor.truth()?;
    let ttl = cursor.time_or_absent()?;
    let grace = cursor.time_or_absent()?;
    Ok(Options {
        always_miss,
        ignore_busy,
        ignore_vary,
        ttl,
        grace,
    })
}

#[tactic(auto, unfolding(crate::specs::Reading::query_at))]
pub(crate) fn query(cursor: &mut Cursor<'_>, alloc: Global) -> Result<Query, Halt>
    ensures { Gives result cursor.new (query_at cursor.old) }
{
    let key = texts(cursor, alloc)?;
    let url = cursor.text()?;
    let fields = fields(cursor, alloc)?;
    let options = options(cursor)?;
    Ok(Query {
        key,
        request: RequestView { url, fields },
        options,
    })
}

#[tactic(auto, unfolding(crate::specs::Reading::source_at))]
pub(crate) fn source(cursor: &mut Cursor<'_>, alloc: Global) -> Result<VclSource, Halt>
    ensures { Gives result cursor.new (source_at cursor.old) }
{
    let name = cursor.text()?;
    let text = cursor.text()?;
    let backends = texts(cursor, alloc)?;
    Ok(VclSource {
        name,
        text,
        backends,
    })
}
