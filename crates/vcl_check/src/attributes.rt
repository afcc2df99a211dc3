// What is wrong with the attributes of backends and probes.
ghost use Rattle.std.specs.Prelude.{◌≡◌, [], map, IfOk, None};
ghost use Rattle.vcl_tree.specs.AttributeView.{value_of};
ghost use Rattle.vcl_tree.specs.Phrase.{list_of};
ghost use Rattle.vcl_check.specs.Mentions.{parts};
ghost use Rattle.vcl_check.specs.Folded.{numbered};
ghost use Rattle.vcl_check.specs.Calls.{unless};
ghost use Rattle.vcl_symbols.specs.Known.{symbol_named};
ghost use Rattle.vcl_check.specs.Known.{meaning_of};
ghost use Rattle.vcl_check.specs.Least.{fault_at};
ghost use Rattle.vcl_check.specs.Attributes.{of_named, of_plain, is_probe, of_probe_named, of_probe_kind, probe_attribute, attribute_name, twice_attribute, probe_member, probe_fault, of_probe, of_backend_kind, backend_attribute, backend_member, hostless, backend_fault};

use crate::declarations::is_number;
use crate::form::Use;
use crate::known::meaning_of;
use crate::rules::unless;
use crate::seen::Meaning;
use crate::told::{fault_at, lesser};
use std::alloc::{AllocError, Global};
use vcl_attributes::misfit_place;
use vcl_language::{AttributeKind, Owner, attribute_named};
use vcl_symbols::{NameIndex, Symbol, SymbolTable};
use vcl_tree::{Attribute, AttributeValue, Fault, Name, Refusal};

// A name where a value of another type is wanted.
fn of_named(meaning: Meaning, place: u32) -> Option<Fault>
    ensures { result ≡ of_named meaning place }
{
    match meaning {
        Meaning::Unknown => fault_at(Refusal::Unknown, Some(place)),
        _ => fault_at(Refusal::Kind, Some(place)),
    }
}

fn mistyped(fits: bool, place: u32) -> Option<Fault>
    ensures { result ≡ fault_at Refusal.Kind (unless fits place) }
{
    fault_at(Refusal::Kind, unless(fits, place))
}

fn of_plain(tables: &SymbolTable<'_>, kind: AttributeKind, value: &AttributeValue) -> Option<Fault>
    ensures { result ≡ of_plain tables.now kind (value_of value.now) }
{
    match value {
        AttributeValue::String(place, _) => mistyped(matches!(kind, AttributeKind::String), *place),
        AttributeValue::Integer(place, _) => {
            mistyped(matches!(kind, AttributeKind::Integer), *place)
        }
        AttributeValue::Duration(place, _) => {
            mistyped(matches!(kind, AttributeKind::Duration), *place)
        }
        AttributeValue::Name(name) => read_name(tables, name),
        AttributeValue::Attributes(place, _) => mistyped(false, *place),
    }
}

fn read_name(tables: &SymbolTable<'_>, name: &Name) -> Option<Fault>
    ensures { result ≡ of_named (meaning_of tables.now Use.Read name.now.text) name.now.place }
{
    of_named(meaning_of(tables, Use::Read, name.text.bytes()), name.place)
}

fn is_probe(symbol: Option<Symbol>) -> bool
    ensures { result ≡ is_probe symbol }
{
    matches!(symbol, Some(Symbol::Probe))
}

fn of_probe_kind(
    tables: &SymbolTable<'_>,
    kind: Option<AttributeKind>,
    place: u32,
    value: &AttributeValue,
) -> Option<Fault>
    ensures { result ≡ of_probe_kind tables.now kind place (value_of value.now) }
{
    match kind {
        None => fault_at(Refusal::Unknown, Some(place)),
        Some(kind) => of_plain(tables, kind, value),
    }
}

fn probe_attribute(tables: &SymbolTable<'_>, attribute: &Attribute) -> Option<Fault>
    ensures { result ≡ probe_attribute tables.now attribute.now }
{
    let kind = attribute_named(Owner::Probe, attribute.name.text.bytes());
    of_probe_kind(tables, kind, attribute.name.place, &attribute.value)
}

fn twice_attribute(names: &NameIndex<'_>, number: usize, attribute: &Attribute) -> Option<Fault>
    ensures { result ≡ twice_attribute names.now number attribute.now }
{
    let is_first = is_number(number, names.find(attribute.name.text.bytes()));
    fault_at(Refusal::Twice, unless(is_first, attribute.name.place))
}

fn probe_member(
    tables: &SymbolTable<'_>,
    names: &NameIndex<'_>,
    number: usize,
    attribute: &Attribute,
) -> Option<Fault>
    ensures { result ≡ probe_member tables.now names.now number attribute.now }
{
    lesser(
        probe_attribute(tables, attribute),
        twice_attribute(names, number, attribute),
    )
}

fn attribute_name(attribute: &Attribute) -> &[u8]
    ensures { result.now ≡ attribute_name attribute.now }
{
    attribute.name.text.bytes()
}

fn names_in<'t>(alloc: Global, attributes: &'t [Attribute]) -> Result<Vec<&'t [u8]>, AllocError>
    ensures { IfOk result (λ out. map (λ name. name.now) out.items ≡ map attribute_name attributes.entry.now) }
{
    let mut out = Vec::new(alloc);
    for attribute in attributes {
        out.push(attribute_name(attribute))?;
    }
    Ok(out)
}

/// The first fault among the attributes of a probe.
pub fn probe_fault(
    alloc: Global,
    tables: &SymbolTable<'_>,
    attributes: &[Attribute],
) -> Result<Option<Fault>, AllocError>
    ensures { IfOk result (λ found. found ≡ probe_fault tables.now attributes.now) }
{
    let names = NameIndex::of(alloc, names_in(alloc, attributes)?)?;
    let mut best = fault_at(Refusal::Kind, misfit_place(attributes));
    for (number, attribute) in attributes.iter().enumerate() {
        best = lesser(best, probe_member(tables, &names, number, attribute));
    }
    Ok(best)
}

// The first fault among the attributes of a probe in braces.
fn nested_fault(
    alloc: Global,
    tables: &SymbolTable<'_>,
    attributes: &[Attribute],
) -> Result<Option<Fault>, AllocError>
    ensures { IfOk result (λ found. found ≡ probe_fault tables.now (parts (list_of attributes.now))) }
{
    probe_fault(alloc, tables, attributes)
}

fn of_probe_named(tables: &SymbolTable<'_>, name: &Name) -> Option<Fault>
    ensures { result ≡ of_probe_named tables.now (is_probe (symbol_named tables.now name.now.text)) name.now.place name.now.text }
{
    if is_probe(tables.symbol_named(name.text.bytes())) {
        None
    } else {
        read_name(tables, name)
    }
}

fn of_probe(
    alloc: Global,
    tables: &SymbolTable<'_>,
    value: &AttributeValue,
) -> Result<Option<Fault>, AllocError>
    ensures { IfOk result (λ found. found ≡ of_probe tables.now (value_of value.now)) }
{
    match value {
        AttributeValue::Name(name) => Ok(of_probe_named(tables, name)),
        AttributeValue::Attributes(_, attributes) => {
            nested_fault(alloc, tables, attributes.as_slice())
        }
        AttributeValue::String(place, _) => Ok(fault_at(Refusal::Kind, Some(*place))),
        AttributeValue::Integer(place, _) => Ok(fault_at(Refusal::Kind, Some(*place))),
        AttributeValue::Duration(place, _) => Ok(fault_at(Refusal::Kind, Some(*place))),
    }
}

fn of_backend_kind(
    alloc: Global,
    tables: &SymbolTable<'_>,
    kind: Option<AttributeKind>,
    place: u32,
    value: &AttributeValue,
) -> Result<Option<Fault>, AllocError>
    ensures { IfOk result (λ found. found ≡ of_backend_kind tables.now kind place (value_of value.now)) }
{
    match kind {
        None => Ok(fault_at(Refusal::Unknown, Some(place))),
        Some(AttributeKind::Probe) => of_probe(alloc, tables, value),
        Some(AttributeKind::String) => Ok(of_plain(tables, AttributeKind::String, value)),
        Some(AttributeKind::Integer) => Ok(of_plain(tables, AttributeKind::Integer, value)),
        Some(AttributeKind::Duration) => Ok(of_plain(tables, AttributeKind::Duration, value)),
    }
}

fn backend_attribute(
    alloc: Global,
    tables: &SymbolTable<'_>,
    attribute: &Attribute,
) -> Result<Option<Fault>, AllocError>
    ensures { IfOk result (λ found. found ≡ backend_attribute tables.now attribute.now) }
{
    let kind = attribute_named(Owner::Backend, attribute.name.text.bytes());
    of_backend_kind(alloc, tables, kind, attribute.name.place, &attribute.value)
}

fn backend_member(
    alloc: Global,
    tables: &SymbolTable<'_>,
    names: &NameIndex<'_>,
    number: usize,
    attribute: &Attribute,
) -> Result<Option<Fault>, AllocError>
    ensures { IfOk result (λ found. found ≡ backend_member tables.now names.now number attribute.now) }
{
    let own = backend_attribute(alloc, tables, attribute)?;
    Ok(lesser(own, twice_attribute(names, number, attribute)))
}

fn hostless(names: &NameIndex<'_>, name: &Name) -> Option<Fault>
    ensures { result ≡ hostless names.now name.now }
{
    fault_at(
        Refusal::Kind,
        unless(names.find(b"host").is_some(), name.place),
    )
}

/// The first fault of a backend.
pub fn backend_fault(
    alloc: Global,
    tables: &SymbolTable<'_>,
    name: &Name,
    attributes: &[Attribute],
) -> Result<Option<Fault>, AllocError>
    ensures { IfOk result (λ found. found ≡ backend_fault tables.now name.now attributes.now) }
{
    let names = NameIndex::of(alloc, names_in(alloc, attributes)?)?;
    among_members(alloc, tables, &names, hostless(&names, name), attributes)
}

fn among_members(
    alloc: Global,
    tables: &SymbolTable<'_>,
    names: &NameIndex<'_>,
    first: Option<Fault>,
    attributes: &[Attribute],
) -> Result<Option<Fault>, AllocError>
    ensures { IfOk result (λ found. found ≡ numbered (backend_member tables.now names.now) 0 first attributes.now) }
{
    let mut best = first;
    for (number, attribute) in attributes.iter().enumerate() {
        let fault = backend_member(alloc, tables, names, number, attribute)?;
        best = lesser(best, fault);
    }
    Ok(best)
}
