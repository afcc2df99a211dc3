// What a text declares.
ghost use Rattle.std.specs.Prelude.{◌≡◌, [], map, filter, filter_map, IfOk, None};
ghost use Rattle.std.specs.List.{list_any};
ghost use Rattle.std.specs.Str.{bytes_eq};
ghost use Rattle.vcl_check.specs.Declarations.{declares_name, is_declared, declarations, names_of, is_of_sort, names_as, sorts_of, place_among, made_by, declares, symbol_of, known_of, is_origin, unknown_mention, unknown_said, is_number, twice_said};
ghost use Rattle.vcl_check.specs.Folded.{numbered};

use crate::mentions::{Mention, MentionKind};
use crate::rules::unless;
use crate::told::{fault_at, lesser};
use directors::DirectorKind;
use std::alloc::{AllocError, Global};
use std::marker::Model;
use units::out_of_memory;
use vcl_language::{is_module, is_reserved, maker_named, subroutine_named};
use vcl_symbols::{NameIndex, Symbol, SymbolTable};
use vcl_tree::{Fault, Refusal};
use vmod_host::Stored;

/// The sorts of names that are listed: of modules, and of what has numbers.
#[derive(Clone, Copy)]
pub enum NameSort {
    Import,
    Backend,
    Acl,
    Director,
    Subroutine,
}

/// The names of each sort that has numbers, in the text's order.
#[derive(Drop)]
struct SortIndexes<'t> {
    backends: NameIndex<'t>,
    acls: NameIndex<'t>,
    directors: NameIndex<'t>,
    subroutines: NameIndex<'t>,
}

impl<'t> Model for SortIndexes<'t> {
    ghost use Rattle.vcl_check.specs.Declarations.{Sorts};

    ghost Value = { Sorts };

    ghost view = { λ s. record { backends = s.backends; acls = s.acls; directors = s.directors; subroutines = s.subroutines } };
}

fn declares_name(kind: MentionKind, name: &[u8]) -> bool
    ensures { result ≡ declares_name kind name.now }
{
    match kind {
        MentionKind::Backend => true,
        MentionKind::Probe => true,
        MentionKind::Acl => true,
        MentionKind::Object => true,
        MentionKind::NoObject => true,
        MentionKind::Subroutine => !is_reserved(name),
        MentionKind::Import => false,
        MentionKind::Call => false,
        MentionKind::Pattern => false,
    }
}

fn is_declared(mention: &Mention<'_>) -> bool
    ensures { result ≡ is_declared mention.now }
{
    declares_name(mention.kind, mention.name)
}

fn is_of_sort(sort: NameSort, mention: &Mention<'_>) -> bool
    ensures { result ≡ is_of_sort sort mention.now }
{
    match (sort, mention.kind) {
        (NameSort::Import, MentionKind::Import) => true,
        (NameSort::Backend, MentionKind::Backend) => true,
        (NameSort::Acl, MentionKind::Acl) => true,
        (NameSort::Director, MentionKind::Object) => maker_named(mention.other).is_some(),
        (NameSort::Subroutine, MentionKind::Subroutine) => !is_reserved(mention.name),
        _ => false,
    }
}

// A number is the place of a name among those of its sort.
fn place_among(names: &NameIndex<'_>, name: &[u8]) -> usize
    ensures { result ≡ place_among names.now name.now }
{
    names.find(name).unwrap_or(0)
}

fn made_by(sorts: &SortIndexes<'_>, name: &[u8], kind: Option<DirectorKind>) -> Symbol
    ensures { result ≡ made_by sorts.now name.now kind }
{
    match kind {
        None => Symbol::UnknownObject,
        Some(kind) => Symbol::Director(kind, place_among(&sorts.directors, name)),
    }
}

fn declares(sorts: &SortIndexes<'_>, kind: MentionKind, name: &[u8], other: &[u8]) -> Option<Symbol>
    ensures { result ≡ declares sorts.now kind name.now other.now }
{
    match kind {
        MentionKind::Backend => Some(Symbol::Backend(place_among(&sorts.backends, name))),
        MentionKind::Probe => Some(Symbol::Probe),
        MentionKind::Acl => Some(Symbol::Acl(place_among(&sorts.acls, name))),
        MentionKind::Object => Some(made_by(sorts, name, maker_named(other))),
        MentionKind::NoObject => Some(Symbol::NoObject),
        MentionKind::Subroutine => {
            if is_reserved(name) {
                None
            } else {
                Some(Symbol::Subroutine(place_among(&sorts.subroutines, name)))
            }
        }
        MentionKind::Import => None,
        MentionKind::Call => None,
        MentionKind::Pattern => None,
    }
}

fn symbol_of(sorts: &SortIndexes<'_>, mention: &Mention<'_>) -> Option<Symbol>
    ensures { result ≡ symbol_of sorts.now mention.now }
{
    declares(sorts, mention.kind, mention.name, mention.other)
}

fn copy_of<'t>(mention: &Mention<'t>) -> Mention<'t>
    ensures { result ≡ mention.now }
{
    Mention {
        kind: mention.kind,
        place: mention.place,
        name: mention.name,
        other: mention.other,
    }
}

/// The declarations among what is said.
pub fn declarations<'t>(
    alloc: Global,
    mentions: &[Mention<'t>],
) -> Result<Vec<Mention<'t>>, AllocError>
    ensures { IfOk result (λ out. out.items ≡ declarations mentions.now) }
{
    let mut out = Vec::new(alloc);
    for mention in mentions {
        if is_declared(mention) {
            out.push(copy_of(mention))?;
        }
    }
    Ok(out)
}

fn of_sort<'t>(
    alloc: Global,
    sort: NameSort,
    mentions: &[Mention<'t>],
) -> Result<Vec<Mention<'t>>, AllocError>
    ensures { IfOk result (λ out. out.items ≡ filter (is_of_sort sort) mentions.now) }
{
    let mut out = Vec::new(alloc);
    for mention in mentions {
        if is_of_sort(sort, mention) {
            out.push(copy_of(mention))?;
        }
    }
    Ok(out)
}

fn names_of<'t>(alloc: Global, mentions: &[Mention<'t>]) -> Result<Vec<&'t [u8]>, AllocError>
    ensures { IfOk result (λ out. map (λ name. name.now) out.items ≡ names_of mentions.now) }
{
    let mut out = Vec::new(alloc);
    for mention in mentions {
        out.push(mention.name)?;
    }
    Ok(out)
}

fn names_as<'t>(
    alloc: Global,
    sort: NameSort,
    mentions: &[Mention<'t>],
) -> Result<NameIndex<'t>, AllocError>
    ensures { IfOk result (λ names. names ≡ names_as sort mentions.entry.now) }
{
    index_of(alloc, of_sort(alloc, sort, mentions)?)
}

fn sorts_of<'t>(alloc: Global, mentions: &[Mention<'t>]) -> Result<SortIndexes<'t>, AllocError>
    ensures { IfOk result (λ sorts. sorts ≡ sorts_of mentions.entry.now) }
{
    let backends = names_as(alloc, NameSort::Backend, mentions)?;
    let Ok(acls) = names_as(alloc, NameSort::Acl, mentions) else {
        return Err(out_of_memory(backends));
    };
    let Ok(directors) = names_as(alloc, NameSort::Director, mentions) else {
        return Err(out_of_memory((backends, acls)));
    };
    let Ok(subroutines) = names_as(alloc, NameSort::Subroutine, mentions) else {
        return Err(out_of_memory((backends, (acls, directors))));
    };
    Ok(SortIndexes {
        backends,
        acls,
        directors,
        subroutines,
    })
}

fn symbols_by(
    alloc: Global,
    sorts: &SortIndexes<'_>,
    mentions: &[Mention<'_>],
) -> Result<Vec<Symbol>, AllocError>
    ensures { IfOk result (λ out. out.items ≡ filter_map (symbol_of sorts.now) mentions.now) }
{
    let mut out = Vec::new(alloc);
    for mention in mentions {
        if let Some(symbol) = symbol_of(sorts, mention) {
            out.push(symbol)?;
        }
    }
    Ok(out)
}

fn symbols_of(alloc: Global, mentions: &[Mention<'_>]) -> Result<Vec<Symbol>, AllocError>
    ensures { IfOk result (λ out. out.items ≡ filter_map (symbol_of (sorts_of mentions.now)) mentions.now) }
{
    let sorts = sorts_of(alloc, mentions)?;
    let symbols = symbols_by(alloc, &sorts, mentions);
    drop(sorts);
    symbols
}

// The index of these names.
fn index_of<'t>(alloc: Global, mentions: Vec<Mention<'t>>) -> Result<NameIndex<'t>, AllocError>
    ensures { IfOk result (λ names. names ≡ names_of mentions.entry.items) }
{
    let Ok(names) = names_of(alloc, mentions.as_slice()) else {
        return Err(out_of_memory(mentions));
    };
    drop(mentions);
    NameIndex::of(alloc, names)
}

/// What the names of a text stand for, by what it says of names.
pub fn symbol_table<'t>(
    alloc: Global,
    mentions: &[Mention<'t>],
    stored: &'t [Stored],
) -> Result<SymbolTable<'t>, AllocError>
    ensures { IfOk result (λ tables. tables ≡ known_of mentions.entry.now stored.entry.now) }
{
    let symbols = symbols_of(alloc, mentions)?;
    let Ok(imports) = names_as(alloc, NameSort::Import, mentions) else {
        return Err(out_of_memory(symbols));
    };
    let Ok(names) = declared_names(alloc, mentions) else {
        return Err(out_of_memory((symbols, imports)));
    };
    Ok(SymbolTable {
        imports,
        names,
        symbols,
        stored,
    })
}

fn declared_names<'t>(alloc: Global, mentions: &[Mention<'t>]) -> Result<NameIndex<'t>, AllocError>
    ensures { IfOk result (λ names. names ≡ names_of (declarations mentions.entry.now)) }
{
    index_of(alloc, declarations(alloc, mentions)?)
}

fn is_origin(stored: &[Stored], name: &[u8]) -> bool
    ensures { result ≡ is_origin stored.now name.now }
{
    is_module(name) || has_module(stored, name)
}

fn has_module(stored: &[Stored], name: &[u8]) -> bool
    ensures { result ≡ list_any (λ entry. bytes_eq entry.signature.module name.now) stored.now }
{
    stored
        .iter()
        .any(|entry| entry.signature.module.bytes() == name)
}

fn unknown_mention(stored: &[Stored], kind: MentionKind, name: &[u8], place: u32) -> Option<u32>
    ensures { result ≡ unknown_mention stored.now kind name.now place }
{
    match kind {
        MentionKind::Import => unless(is_origin(stored, name), place),
        MentionKind::Subroutine => unless(
            !is_reserved(name) || subroutine_named(name).is_some(),
            place,
        ),
        _ => None,
    }
}

/// The first module that isn't there, or subroutine that isn't built in and is named so.
pub fn unknown_among(stored: &[Stored], mentions: &[Mention<'_>]) -> Option<Fault>
    ensures { result ≡ numbered (unknown_said stored.now) 0 None mentions.now }
{
    let mut best = None;
    for mention in mentions {
        best = lesser(best, unknown_said(stored, mention));
    }
    best
}

fn unknown_said(stored: &[Stored], mention: &Mention<'_>) -> Option<Fault>
    ensures { result ≡ unknown_said stored.now 0 mention.now }
{
    let place = unknown_mention(stored, mention.kind, mention.name, mention.place);
    fault_at(Refusal::Unknown, place)
}

pub fn is_number(number: usize, found: Option<usize>) -> bool
    ensures { result ≡ is_number number found }
{
    match found {
        None => false,
        Some(first) => first == number,
    }
}

/// The first declaration of a name that is declared before it.
pub fn twice_declared(tables: &SymbolTable<'_>, declared: &[Mention<'_>]) -> Option<Fault>
    ensures { result ≡ numbered (twice_said tables.now.names) 0 None declared.now }
{
    twice_among(&tables.names, declared)
}

fn twice_among(names: &NameIndex<'_>, declared: &[Mention<'_>]) -> Option<Fault>
    ensures { result ≡ numbered (twice_said names.now) 0 None declared.now }
{
    let mut best = None;
    for (number, mention) in declared.iter().enumerate() {
        best = lesser(best, twice_said(names, number, mention));
    }
    best
}

fn twice_said(names: &NameIndex<'_>, number: usize, mention: &Mention<'_>) -> Option<Fault>
    ensures { result ≡ twice_said names.now number mention.now }
{
    let is_first = is_number(number, names.find(mention.name));
    fault_at(Refusal::Twice, unless(is_first, mention.place))
}
