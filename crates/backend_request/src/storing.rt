// What is handed to the cache.
ghost use Rattle.std.specs.Prelude.{◌≡◌, ◌++◌, ◌∷◌, [], not, filter, map, codes, IfOk, OnOk};
ghost use Rattle.std.specs.Option.{option_copied};
ghost use Rattle.std.specs.List.{list_any};
ghost use Rattle.http_heads.specs.Fields.{is_named};
ghost use Rattle.freshness.specs.Directives.{values_of};
ghost use Rattle.backend_request.specs.Stored.{is_star as every, item_in, items_for, key_of, fields_of, content_of, response_of, marker_of};

use cache_law::{Content, Marker, Query, Response, VaryItem};
use freshness::Timing;
use http_heads::{Field, Fields, ResponseHead, Separators, listed};
use std::alloc::{AllocError, Global};
use units::{Copied, Sequence, Shared, Text, fold_eq};

fn has_name(name: &[u8], field: &Field) -> bool
    ensures { result ≡ is_named name.now field.now }
{
    fold_eq(name, field.name.bytes())
}

fn values(alloc: Global, fields: &[Field], name: &[u8]) -> Result<Sequence<Text>, AllocError>
    ensures { IfOk result (λ texts. texts ≡ values_of name.now fields.now) }
{
    let mut texts = Vec::new(alloc);
    for field in fields {
        if has_name(name, field) {
            texts.push(field.value.copy()?)?;
        }
    }
    Ok(Sequence::from_vec(texts))
}

fn make_item(alloc: Global, fields: &[Field], name: &Text) -> Result<VaryItem, AllocError>
    ensures { IfOk result (λ item. item ≡ item_in fields.now name.now) }
{
    Ok(VaryItem {
        name: name.copy()?,
        values: values(alloc, fields, name.bytes())?,
    })
}

fn is_star(name: &Text) -> bool
    ensures { result ≡ every name.now }
{
    name.bytes() == b"*".as_slice()
}

fn make_items(
    alloc: Global,
    fields: &[Field],
    names: &[Text],
) -> Result<Sequence<VaryItem>, AllocError>
    ensures { IfOk result (λ items. items ≡ items_for fields.now names.now) }
{
    let mut items = Vec::new(alloc);
    for name in names {
        if !is_star(name) {
            items.push(make_item(alloc, fields, name)?)?;
        }
    }
    Ok(Sequence::from_vec(items))
}

fn has_star(names: &[Text]) -> bool
    ensures { result ≡ list_any every names.now }
{
    names.iter().any(|name| is_star(name))
}

fn copy_key(alloc: Global, looked: Option<&Query>) -> Result<Sequence<Text>, AllocError>
    ensures { IfOk result (λ key. key ≡ key_of (option_copied looked.entry)) }
{
    match looked {
        Some(query) => query.key.copied(alloc),
        None => Ok(Sequence::new(alloc)),
    }
}

fn request_fields(looked: Option<&Query>) -> &[Field]
    ensures { result.now ≡ fields_of (option_copied looked.entry) }
{
    match looked {
        Some(query) => query.request.fields.as_slice(),
        None => &[],
    }
}

fn make_content(
    alloc: Global,
    looked: Option<&Query>,
    head: ResponseHead,
    body: Text,
) -> Result<Content, AllocError>
    ensures { IfOk result (λ content. content ≡ content_of (option_copied looked.entry) head body) }
{
    let names = listed(alloc, &head.fields, b"vary", Separators::Commas)?;
    let xkeys = listed(alloc, &head.fields, b"xkey", Separators::CommasAndBlanks)?;
    Ok(Content {
        key: copy_key(alloc, looked)?,
        vary: make_items(alloc, request_fields(looked), names.as_slice())?,
        varies_always: has_star(names.as_slice()),
        status: head.status,
        reason: head.reason,
        fields: head.fields,
        body,
        xkeys,
    })
}

/// The response that VCL left of a fetch, as an object of the lookup that began the fetch. What was passed was looked up by
/// nothing.
pub fn make_response(
    alloc: Global,
    looked: Option<&Query>,
    head: ResponseHead,
    body: Text,
    timing: Timing,
) -> Result<Response, AllocError>
    ensures { IfOk result (λ response. response ≡ response_of (option_copied looked.entry) head body timing) }
{
    let content = make_content(alloc, looked, head, body)?;
    Ok(Response {
        timing,
        content: Shared::new(alloc, content)?,
    })
}

/// What is remembered of a response that isn't kept, for `ttl` milliseconds from its origin on.
pub fn make_marker(alloc: Global, response: &Response, ttl: i64) -> Result<Marker, AllocError>
    ensures { IfOk result (λ marker. marker ≡ marker_of response.now ttl) }
{
    let content: &Content = &response.content;
    Ok(Marker {
        key: content.key.copied(alloc)?,
        vary: copy_items(alloc, content.vary.as_slice())?,
        status: content.status,
        origin: response.timing.origin,
        ttl,
    })
}

fn copy_items(alloc: Global, items: &[VaryItem]) -> Result<Sequence<VaryItem>, AllocError>
    ensures { IfOk result (λ copy. copy ≡ items.now) }
{
    let mut copy = Vec::new(alloc);
    for item in items {
        copy.push(copy_item(alloc, item)?)?;
    }
    Ok(Sequence::from_vec(copy))
}

fn copy_item(alloc: Global, item: &VaryItem) -> Result<VaryItem, AllocError>
    ensures { IfOk result (λ copy. copy ≡ item.now) }
{
    Ok(VaryItem {
        name: item.name.copy()?,
        values: item.values.copied(alloc)?,
    })
}
