// What an object takes of the room, and an entry of the history.
ghost use Rattle.std.specs.Prelude.{◌≡◌, ◌+◌, ◌*◌, ◌-◌, ◌^◌, length, min};
ghost use Rattle.cache_law.specs.Object.{fields_len, object_len, size_of, star_len, texts_len, vary_len};
ghost use Rattle.cache_law.specs.History.{bytes_of, members_len};

use crate::{Call, Content, Marker, Object, Query, VaryItem, VclSource};
use directors::{Member, Target};
use http_heads::Field;
use units::Text;

/// A sum that stops at the greatest number of 128 bits.
fn plus(total: u128, more: usize) -> u128
    ensures { result ≡ min (total + more) (2 ^ 128 - 1) }
{
    total.saturating_add(more as u128)
}

fn texts_bytes(start: u128, texts: &[Text]) -> u128
    ensures { result ≡ min (start + texts_len texts.now) (2 ^ 128 - 1) }
{
    let mut total = start;
    for text in texts {
        total = plus(total, text.bytes().len());
    }
    total
}

/// The names and values of fields.
fn fields_bytes(start: u128, fields: &[Field]) -> u128
    ensures { result ≡ min (start + fields_len fields.now) (2 ^ 128 - 1) }
{
    let mut total = start;
    for field in fields {
        total = plus(total, field.name.bytes().len());
        total = plus(total, field.value.bytes().len());
    }
    total
}

/// The names and values by which a response was chosen.
fn vary_bytes(start: u128, vary: &[VaryItem]) -> u128
    ensures { result ≡ min (start + vary_len vary.now) (2 ^ 128 - 1) }
{
    let mut total = start;
    for item in vary {
        total = texts_bytes(plus(total, item.name.bytes().len()), item.values.as_slice());
    }
    total
}

fn content_size(content: &Content) -> u128
    ensures { result ≡ min (512 + texts_len content.now.key + fields_len content.now.fields + 4 * length content.now.fields + length content.now.body) (2 ^ 128 - 1) }
{
    let key = texts_bytes(512, content.key.as_slice());
    let fields = fields_bytes(key, content.fields.as_slice());
    let counted = fields.saturating_add(4 * content.fields.as_slice().len() as u128);
    plus(counted, content.body.bytes().len())
}

/// What an object takes of the room, or the greatest number of 128 bits where that is less.
pub fn object_size(object: &Object) -> u128
    ensures { result ≡ min (size_of object.now) (2 ^ 128 - 1) }
{
    match object {
        Object::Ordinary(response) => content_size(&response.content),
        Object::HitForMiss(marker) => texts_bytes(512, marker.key.as_slice()),
        Object::HitForPass(marker) => texts_bytes(512, marker.key.as_slice()),
    }
}

/// The name `*`, by which a response was chosen that varies by more than fields.
fn star_bytes(varies_always: bool) -> usize
    ensures { result ≡ star_len varies_always }
{
    if varies_always { 1 } else { 0 }
}

fn content_bytes(content: &Content) -> u128
    ensures { result ≡ min (64 + (texts_len content.now.key + star_len content.now.varies_always + vary_len content.now.vary + length content.now.reason + fields_len content.now.fields + length content.now.body + texts_len content.now.xkeys)) (2 ^ 128 - 1) }
{
    let key = texts_bytes(64, content.key.as_slice());
    let star = plus(key, star_bytes(content.varies_always));
    let vary = vary_bytes(star, content.vary.as_slice());
    let reason = plus(vary, content.reason.bytes().len());
    let fields = fields_bytes(reason, content.fields.as_slice());
    let body = plus(fields, content.body.bytes().len());
    texts_bytes(body, content.xkeys.as_slice())
}

fn marker_bytes(marker: &Marker) -> u128
    ensures { result ≡ min (64 + (texts_len marker.now.key + vary_len marker.now.vary)) (2 ^ 128 - 1) }
{
    vary_bytes(
        texts_bytes(64, marker.key.as_slice()),
        marker.vary.as_slice(),
    )
}

fn insert_bytes(object: &Object) -> u128
    ensures { result ≡ min (64 + object_len object.now) (2 ^ 128 - 1) }
{
    match object {
        Object::Ordinary(response) => content_bytes(&response.content),
        Object::HitForMiss(marker) => marker_bytes(marker),
        Object::HitForPass(marker) => marker_bytes(marker),
    }
}

fn lookup_bytes(query: &Query) -> u128
    ensures { result ≡ min (64 + (texts_len query.now.key + length query.now.request.url + fields_len query.now.request.fields)) (2 ^ 128 - 1) }
{
    let key = texts_bytes(64, query.key.as_slice());
    let url = plus(key, query.request.url.bytes().len());
    fields_bytes(url, query.request.fields.as_slice())
}

/// The names of members.
fn members_bytes(start: u128, members: &[Member]) -> u128
    ensures { result ≡ min (start + members_len members.now) (2 ^ 128 - 1) }
{
    let mut total = start;
    for member in members {
        total = plus(total, member.name.bytes().len());
    }
    total
}

fn pick_bytes(target: &Target) -> u128
    ensures { result ≡ min (64 + (length target.now.name + members_len target.now.members)) (2 ^ 128 - 1) }
{
    members_bytes(
        plus(64, target.name.bytes().len()),
        target.members.as_slice(),
    )
}

fn load_bytes(source: &VclSource) -> u128
    ensures { result ≡ min (64 + (length source.now.name + length source.now.text + texts_len source.now.backends)) (2 ^ 128 - 1) }
{
    let name = plus(64, source.name.bytes().len());
    let text = plus(name, source.text.bytes().len());
    texts_bytes(text, source.backends.as_slice())
}

/// What the entry of a call takes of the history, or the greatest number of 128 bits where that is less.
pub fn entry_bytes(call: &Call) -> u128
    ensures { result ≡ min (bytes_of call.now) (2 ^ 128 - 1) }
{
    match call {
        Call::Begin | Call::Draw | Call::BanList | Call::VclList | Call::Drop { .. } | Call::End =>
            64,
        Call::Lookup(query) => lookup_bytes(query),
        Call::Pick { target, .. } => pick_bytes(target),
        Call::Insert { object, .. } => insert_bytes(object),
        Call::Ban(ban) => texts_bytes(64, ban.words.as_slice()),
        Call::Purge { key } => texts_bytes(64, key.as_slice()),
        Call::Xkey { keys, .. } => texts_bytes(64, keys.as_slice()),
        Call::SetHealth { backend, .. } => plus(64, backend.bytes().len()),
        Call::Load(source) => load_bytes(source),
        Call::Switch { name } | Call::Discard { name } => plus(64, name.bytes().len()),
    }
}
