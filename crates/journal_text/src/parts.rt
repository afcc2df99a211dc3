// The words of lists, objects and targets.
ghost use Rattle.std.specs.Prelude.{◌≡◌, ◌++◌, ◌∷◌, [], length, OnOk};
ghost use Rattle.journal_text.specs.declared.word.Word.TheVariants.{Key, Long, Signed, Quoted};
ghost use Rattle.journal_text.specs.Grammar.{count_words, texts_words, field_words, fields_words, item_words, vary_words, member_words, members_words, timing_words, content_words, marker_words, front_words, xkeys_of, object_words, kind_key, target_words};

use crate::words::Words;
use cache_law::{Content, Marker, Object, VaryItem};
use directors::{DirectorKind, Member, Target};
use freshness::Timing;
use http_heads::Field;
use std::alloc::{AllocError, Global};
use units::Text;

pub(crate) fn put_texts(words: &mut Words, texts: &[Text]) -> Result<(), AllocError>
    ensures { OnOk result (words.new ≡ words.old ++ texts_words texts.now) }
{
    words.long(texts.len() as u64)?;
    for text in texts {
        words.quoted(text)?;
    }
    Ok(())
}

fn put_field(words: &mut Words, field: &Field) -> Result<(), AllocError>
    ensures { OnOk result (words.new ≡ words.old ++ field_words field.now) }
{
    words.quoted(&field.name)?;
    words.quoted(&field.value)
}

pub(crate) fn put_fields(words: &mut Words, fields: &[Field]) -> Result<(), AllocError>
    ensures { OnOk result (words.new ≡ words.old ++ fields_words fields.now) }
{
    words.long(fields.len() as u64)?;
    for field in fields {
        put_field(words, field)?;
    }
    Ok(())
}

fn put_item(words: &mut Words, item: &VaryItem) -> Result<(), AllocError>
    ensures { OnOk result (words.new ≡ words.old ++ item_words item.now) }
{
    words.quoted(&item.name)?;
    put_texts(words, item.values.as_slice())
}

// How many items there are, and a `*` where that is one of them.
fn put_count(
    words: &mut Words,
    alloc: Global,
    always: bool,
    items: &[VaryItem],
) -> Result<(), AllocError>
    ensures { OnOk result (words.new ≡ words.old ++ count_words always (length items.now)) }
{
    if always {
        words.long(items.len() as u64 + 1)?;
        words.key(alloc, b"*")
    } else {
        words.long(items.len() as u64)
    }
}

fn put_vary(
    words: &mut Words,
    alloc: Global,
    always: bool,
    items: &[VaryItem],
) -> Result<(), AllocError>
    ensures { OnOk result (words.new ≡ words.old ++ vary_words always items.now) }
{
    put_count(words, alloc, always, items)?;
    for item in items {
        put_item(words, item)?;
    }
    Ok(())
}

fn put_member(words: &mut Words, member: &Member) -> Result<(), AllocError>
    ensures { OnOk result (words.new ≡ words.old ++ member_words member.now) }
{
    words.quoted(&member.name)?;
    words.middle(member.weight)
}

fn put_members(words: &mut Words, members: &[Member]) -> Result<(), AllocError>
    ensures { OnOk result (words.new ≡ words.old ++ members_words members.now) }
{
    words.long(members.len() as u64)?;
    for member in members {
        put_member(words, member)?;
    }
    Ok(())
}

fn put_kind(words: &mut Words, alloc: Global, kind: DirectorKind) -> Result<(), AllocError>
    ensures { OnOk result (words.new ≡ words.old ++ Key (kind_key kind) ∷ []) }
{
    match kind {
        DirectorKind::One => words.key(alloc, b"one"),
        DirectorKind::RoundRobin => words.key(alloc, b"round_robin"),
        DirectorKind::Fallback => words.key(alloc, b"fallback"),
        DirectorKind::Random => words.key(alloc, b"random"),
        DirectorKind::Hash => words.key(alloc, b"hash"),
    }
}

pub(crate) fn put_target(
    words: &mut Words,
    alloc: Global,
    target: &Target,
) -> Result<(), AllocError>
    ensures { OnOk result (words.new ≡ words.old ++ target_words target.now) }
{
    put_kind(words, alloc, target.kind)?;
    words.quoted(&target.name)?;
    put_members(words, target.members.as_slice())
}

fn put_times(words: &mut Words, first: i64, second: i64) -> Result<(), AllocError>
    ensures { OnOk result (words.new ≡ words.old ++ Signed first ∷ Signed second ∷ []) }
{
    words.signed(first)?;
    words.signed(second)
}

fn put_timing(words: &mut Words, timing: Timing) -> Result<(), AllocError>
    ensures { OnOk result (words.new ≡ words.old ++ timing_words timing) }
{
    put_times(words, timing.origin, timing.ttl)?;
    put_times(words, timing.grace, timing.keep)
}

fn put_content(words: &mut Words, alloc: Global, content: &Content) -> Result<(), AllocError>
    ensures { OnOk result (words.new ≡ words.old ++ content_words content.now) }
{
    put_texts(words, content.key.as_slice())?;
    put_vary(words, alloc, content.varies_always, content.vary.as_slice())?;
    words.short(content.status)?;
    words.quoted(&content.reason)?;
    put_fields(words, content.fields.as_slice())?;
    words.quoted(&content.body)
}

// What a marker has none of.
fn put_empty(words: &mut Words, alloc: Global) -> Result<(), AllocError>
    ensures { OnOk result (words.new ≡ words.old ++ Quoted [] ∷ Long 0 ∷ Quoted [] ∷ []) }
{
    let empty = Text::of(alloc, b"")?;
    words.quoted(&empty)?;
    words.long(0)?;
    words.quoted(&empty)
}

fn put_marker(words: &mut Words, alloc: Global, marker: &Marker) -> Result<(), AllocError>
    ensures { OnOk result (words.new ≡ words.old ++ marker_words marker.now) }
{
    put_texts(words, marker.key.as_slice())?;
    put_vary(words, alloc, false, marker.vary.as_slice())?;
    words.short(marker.status)?;
    put_empty(words, alloc)
}

// What stands before an object's timing.
fn put_front(words: &mut Words, alloc: Global, object: &Object) -> Result<(), AllocError>
    ensures { OnOk result (words.new ≡ words.old ++ front_words object.now) }
{
    match object {
        Object::Ordinary(response) => {
            words.key(alloc, b"o")?;
            put_content(words, alloc, &response.content)
        }
        Object::HitForMiss(marker) => {
            words.key(alloc, b"m")?;
            put_marker(words, alloc, marker)
        }
        Object::HitForPass(marker) => {
            words.key(alloc, b"p")?;
            put_marker(words, alloc, marker)
        }
    }
}

fn put_xkeys(words: &mut Words, object: &Object) -> Result<(), AllocError>
    ensures { OnOk result (words.new ≡ words.old ++ texts_words (xkeys_of object.now)) }
{
    match object {
        Object::Ordinary(response) => put_texts(words, response.content.xkeys.as_slice()),
        Object::HitForMiss(_) | Object::HitForPass(_) => words.long(0),
    }
}

pub(crate) fn put_object(
    words: &mut Words,
    alloc: Global,
    object: &Object,
) -> Result<(), AllocError>
    ensures { OnOk result (words.new ≡ words.old ++ object_words object.now) }
{
    put_front(words, alloc, object)?;
    put_timing(words, object.timing())?;
    put_xkeys(words, object)
}
