// The attributes of probes.
ghost use Rattle.std.specs.Prelude.{◌≡◌, Some, IfOk, codes, map, option_map, slice_get};
ghost use Rattle.std.specs.Option.{option_and_then};
ghost use Rattle.vcl_tree.specs.AttributeView.{value_of};
ghost use Rattle.vcl_tree.specs.Phrase.{list_of};
ghost use Rattle.vcl_attributes.specs.Readers.{first_read, read_named};
ghost use Rattle.vcl_probes.specs.Parts.{parts};
ghost use Rattle.vcl_probes.specs.TextProbes.{body_of, declared_body, named_body, probe_name};

use std::alloc::{AllocError, Global};
use vcl_symbols::NameIndex;
use vcl_tree::{Attribute, AttributeValue, Item};

fn probe_name(item: &Item) -> &[u8]
    ensures { result.now ≡ probe_name item.now }
{
    match item {
        Item::Probe(_, name, _) => name.text.bytes(),
        _ => &[],
    }
}

fn declared_body(item: &Item) -> Option<&[Attribute]>
    ensures { option_map (λ body. body.now) result ≡ declared_body item.now }
{
    match item {
        Item::Probe(_, _, attributes) => Some(attributes.as_slice()),
        _ => None,
    }
}

/// The names of the probes among the items, each at its item's place.
pub fn probe_names<'t>(alloc: Global, items: &'t [Item]) -> Result<Vec<&'t [u8]>, AllocError>
    ensures { IfOk result (λ names. map (λ name. name.now) names.items ≡ map probe_name items.entry.now) }
{
    let mut names = Vec::new(alloc);
    for item in items {
        names.push(probe_name(item))?;
    }
    Ok(names)
}

fn body_at(items: &[Item], number: usize) -> Option<&[Attribute]>
    ensures { option_map (λ body. body.now) result ≡ option_and_then declared_body (slice_get items.now number) }
{
    match items.get(number) {
        Some(item) => declared_body(item),
        None => None,
    }
}

// The attributes of the first probe of this name.
fn named_body<'t>(names: &NameIndex<'_>, items: &'t [Item], name: &[u8]) -> Option<&'t [Attribute]>
    ensures { option_map (λ body. body.now) result ≡ named_body names.now items.entry.now name.now }
{
    match names.find(name) {
        Some(number) => body_at(items, number),
        None => None,
    }
}

// The attributes in the braces of a `.probe`.
fn nested_body(attributes: &[Attribute]) -> Option<&[Attribute]>
    ensures { option_map (λ body. body.now) result ≡ Some (parts (list_of attributes.now)) }
{
    Some(attributes)
}

fn body_of<'t>(
    names: &NameIndex<'_>,
    items: &'t [Item],
    value: &'t AttributeValue,
) -> Option<&'t [Attribute]>
    ensures { option_map (λ body. body.now) result ≡ body_of names.now items.entry.now (value_of value.entry.now) }
{
    match value {
        AttributeValue::Name(name) => named_body(names, items, name.text.bytes()),
        AttributeValue::Attributes(_, attributes) => nested_body(attributes.as_slice()),
        AttributeValue::String(_, _) => None,
        AttributeValue::Integer(_, _) => None,
        AttributeValue::Duration(_, _) => None,
    }
}

// The attributes of the probe that the attribute is, if it is `.probe`.
fn body_named<'t>(
    names: &NameIndex<'_>,
    items: &'t [Item],
    attribute: &'t Attribute,
) -> Option<&'t [Attribute]>
    ensures { option_map (λ body. body.now) result ≡ read_named (body_of names.now items.entry.now) (codes "probe") attribute.entry.now }
{
    if attribute.name.text.bytes() == b"probe".as_slice() {
        body_of(names, items, &attribute.value)
    } else {
        None
    }
}

/// The attributes of the probe of a backend with these attributes.
pub fn first_body<'t>(
    names: &NameIndex<'_>,
    items: &'t [Item],
    attributes: &'t [Attribute],
) -> Option<&'t [Attribute]>
    ensures { option_map (λ body. body.now) result ≡ first_read (body_of names.now items.entry.now) (codes "probe") attributes.entry.now }
{
    for attribute in attributes {
        if let Some(body) = body_named(names, items, attribute) {
            return Some(body);
        }
    }
    None
}
