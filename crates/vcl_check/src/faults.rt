// The first fault of a whole text.
ghost use Rattle.std.specs.Prelude.{◌≡◌, ◌≤◌, None, IfOk, length};
ghost use Rattle.vcl_check.specs.Acls.{with_acl, with_acls, acls_in};
ghost use Rattle.vcl_check.specs.Declarations.{declarations, known_of, names_of};
ghost use Rattle.vcl_check.specs.Reaching.{numbered_names};
ghost use Rattle.vcl_check.specs.Folded.{numbered};
ghost use Rattle.vcl_check.specs.Least.{lesser};
ghost use Rattle.vcl_check.specs.Items.{item_told, of_item};
ghost use Rattle.vcl_check.specs.Texts.{says, pattern_texts, refused_at, is_backend, has_backend, IsFirstFault};

use crate::acls::acl_fault;
use crate::attributes::{backend_fault, probe_fault};
use crate::declarations::{declarations, symbol_table, twice_declared, unknown_among};
use crate::mentions::{Mention, says};
use crate::patterns::try_patterns;
use crate::reaching::{graph_of, numbers_of, roots_of, rows_of};
use crate::statements::block;
use crate::told::{fault_at, lesser};
use acl_match::Acl;
use std::alloc::{AllocError, Global};
use units::{Sequence, out_of_memory};
use vcl_symbols::{NameIndex, SymbolTable};
use vcl_tree::{Block, Fault, Item, Refusal};
use vcl_values::Pattern;
use vmod_host::Stored;

#[tactic(auto, unfolding(crate::specs::Items::block_told))]
fn block_told(
    alloc: Global,
    tables: &SymbolTable<'_>,
    numbers: &NameIndex<'_>,
    rows: &[Sequence<bool>],
    name: &[u8],
    statements: &Block,
) -> Result<Option<Fault>, AllocError>
    ensures { IfOk result (λ found. found ≡ block_told tables.now numbers.now rows.now name.now statements.now) }
{
    let roots = roots_of(alloc, numbers, rows, name)?;
    let told = block(tables, roots.as_slice(), statements);
    Ok(told.least)
}

ghost use Rattle.vcl_check.specs.Items.{block_told};

fn item_told(
    alloc: Global,
    tables: &SymbolTable<'_>,
    numbers: &NameIndex<'_>,
    rows: &[Sequence<bool>],
    item: &Item,
    acls: &mut Vec<Acl>,
) -> Result<Option<Fault>, AllocError>
    ensures told { IfOk result (λ found. found ≡ of_item tables.now numbers.now rows.now item.now) }
    ensures acls { IfOk result (λ found. found ≡ None → acls.new.items ≡ with_acl acls.old.items item.now) }
{
    match item {
        Item::Import(_, _) => Ok(None),
        Item::NoBackend(_, _) => Ok(None),
        Item::Backend(_, name, attributes) => {
            backend_fault(alloc, tables, name, attributes.as_slice())
        }
        Item::Probe(_, _, attributes) => probe_fault(alloc, tables, attributes.as_slice()),
        Item::Acl(_, _, entries) => acl_fault(alloc, entries.as_slice(), acls),
        Item::Sub(_, name, statements) => {
            block_told(alloc, tables, numbers, rows, name.text.bytes(), statements)
        }
    }
}

fn among_items(
    alloc: Global,
    tables: &SymbolTable<'_>,
    numbers: &NameIndex<'_>,
    rows: &[Sequence<bool>],
    items: &[Item],
    acls: &mut Vec<Acl>,
) -> Result<Option<Fault>, AllocError>
    ensures told { IfOk result (λ found. found ≡ numbered (item_told tables.now numbers.now rows.now) 0 None items.now) }
    ensures acls { IfOk result (λ found. found ≡ None → acls.new.items ≡ with_acls acls.old.items items.now) }
{
    let mut best = None;
    for item in items {
        let found = item_told(alloc, tables, numbers, rows, item, acls)?;
        best = lesser(best, found);
    }
    Ok(best)
}

fn among_refused(places: &[u32]) -> Option<Fault>
    ensures { result ≡ numbered refused_at 0 None places.now }
{
    let mut best = None;
    for place in places {
        best = lesser(best, fault_at(Refusal::Pattern, Some(*place)));
    }
    best
}

/// What is found of a text: its first fault other than that no backend is declared, and what is built of its strings.
#[derive(Drop)]
pub struct Found {
    pub fault: Option<Fault>,
    pub built: Built,
}

/// The patterns and the address lists that strings of a text are, in its order.
#[derive(Drop)]
pub struct Built {
    pub patterns: Vec<Pattern>,
    pub acls: Vec<Acl>,
}

/// What the names of a text are, for all that is asked of them.
#[derive(Drop)]
struct Names<'t> {
    said: Vec<Mention<'t>>,
    declared: Vec<Mention<'t>>,
    tables: SymbolTable<'t>,
    numbers: NameIndex<'t>,
}

fn names_in<'t>(
    alloc: Global,
    items: &'t [Item],
    stored: &'t [Stored],
) -> Result<Names<'t>, AllocError>
    ensures said { IfOk result (λ names. names.said.items ≡ says items.entry.now) }
    ensures declared { IfOk result (λ names. names.declared.items ≡ declarations names.said.items) }
    ensures tables { IfOk result (λ names. names.tables ≡ known_of names.said.items stored.entry.now) }
    ensures numbers { IfOk result (λ names. names.numbers ≡ numbered_names (names_of names.declared.items)) }
    ensures long { IfOk result (λ names. 13 ≤ length names.numbers) }
{
    let said = says(alloc, items)?;
    let Ok(declared) = declarations(alloc, said.as_slice()) else {
        return Err(out_of_memory(said));
    };
    let Ok(tables) = symbol_table(alloc, said.as_slice(), stored) else {
        return Err(out_of_memory((said, declared)));
    };
    let Ok(numbers) = numbers_of(alloc, declared.as_slice()) else {
        return Err(out_of_memory(((said, declared), tables)));
    };
    Ok(Names {
        said,
        declared,
        tables,
        numbers,
    })
}

/// Looks for faults of a text.
pub fn first_fault<'t>(
    alloc: Global,
    items: &'t [Item],
    stored: &'t [Stored],
) -> Result<Found, AllocError>
    ensures first { IfOk result (λ found. IsFirstFault items.now stored.now found.fault) }
    ensures patterns { IfOk result (λ found. found.fault ≡ None → found.built.patterns.items ≡ pattern_texts (says items.now)) }
    ensures acls { IfOk result (λ found. found.fault ≡ None → found.built.acls.items ≡ acls_in items.now) }
{
    let names = names_in(alloc, items, stored)?;
    let found = found_by(alloc, items, stored, &names);
    drop(names);
    found
}

// The same, by what the names are. Nothing that is to be let go is held where memory may be wanting.
fn found_by(
    alloc: Global,
    items: &[Item],
    stored: &[Stored],
    names: &Names<'_>,
) -> Result<Found, AllocError>
    requires said { names.now.said.items ≡ says items.now }
    requires declared { names.now.declared.items ≡ declarations names.now.said.items }
    requires tables { names.now.tables ≡ known_of names.now.said.items stored.now }
    requires numbers { names.now.numbers ≡ numbered_names (names_of names.now.declared.items) }
    requires long { 13 ≤ length names.now.numbers }
    ensures first { IfOk result (λ found. IsFirstFault items.now stored.now found.fault) }
    ensures patterns { IfOk result (λ found. found.fault ≡ None → found.built.patterns.items ≡ pattern_texts (says items.now)) }
    ensures acls { IfOk result (λ found. found.fault ≡ None → found.built.acls.items ≡ acls_in items.now) }
{
    let said = names.said.as_slice();
    let declared = names.declared.as_slice();
    let graph = graph_of(alloc, &names.tables, &names.numbers, said)?;
    let Ok(reached) = rows_of(alloc, &graph) else {
        return Err(out_of_memory(graph));
    };
    let Ok(on_circle) = graph.first_on_circle(alloc) else {
        return Err(out_of_memory((graph, reached)));
    };
    drop(graph);
    let rows = reached.as_slice();
    let mut acls = Vec::new(alloc);
    let Ok(inside) = among_items(alloc, &names.tables, &names.numbers, rows, items, &mut acls)
    else {
        return Err(out_of_memory((reached, acls)));
    };
    drop(reached);
    let Ok(tried) = try_patterns(alloc, said) else {
        return Err(out_of_memory(acls));
    };
    let unknown = unknown_among(stored, said);
    let twice = twice_declared(&names.tables, declared);
    let circle = fault_at(Refusal::Recursion, on_circle);
    let refused = among_refused(tried.places.as_slice());
    drop(tried.places);
    let fault = first_of(unknown, twice, inside, circle, refused);
    Ok(Found {
        fault,
        built: Built {
            patterns: tried.patterns,
            acls,
        },
    })
}

fn first_of(
    unknown: Option<Fault>,
    twice: Option<Fault>,
    inside: Option<Fault>,
    circle: Option<Fault>,
    refused: Option<Fault>,
) -> Option<Fault>
    ensures { result ≡ lesser unknown (lesser twice (lesser inside (lesser circle refused))) }
{
    lesser(
        unknown,
        lesser(twice, lesser(inside, lesser(circle, refused))),
    )
}

fn is_backend(item: &Item) -> bool
    ensures { result ≡ is_backend item.now }
{
    matches!(item, Item::Backend(_, _, _) | Item::NoBackend(_, _))
}

/// Whether a backend is declared.
pub fn has_backend(items: &[Item]) -> bool
    ensures { result ≡ has_backend items.now }
{
    items.iter().any(|item| is_backend(item))
}
