// Calls of subroutines, and from which built-in ones each is reached.
ghost use Rattle.std.specs.Prelude.{◌≡◌, ◌∷◌, ◌++◌, ◌<◌, [], map, IfOk, IfSome, OnOk, ◌≤◌, length, slice_index_or, false};
ghost use Rattle.vcl_symbols.specs.Calls.{AreWithin};
ghost use Rattle.vcl_check.specs.Reaching.{numbered_names, number_in, is_subroutine, callee, call_of, calls_of, AreReached, marking, reaching, roots_of};

use crate::mentions::{Mention, MentionKind};
use std::alloc::{AllocError, Global};
use units::Sequence;
use vcl_language::{SUBROUTINE_NAMES, SUBROUTINES, Subroutine, is_reserved, subroutine_named};
use vcl_symbols::{Call, CallGraph, NameIndex, Symbol, SymbolTable};

fn push_names<'t>(out: &mut Vec<&'t [u8]>, names: &[&'static str]) -> Result<(), AllocError>
    ensures { OnOk result (map (λ name. name.now) out.new.items ≡ map (λ name. name.now) out.old.items ++ map (λ name. name.now) names.now) }
{
    for name in names {
        out.push(name.as_bytes())?;
    }
    Ok(())
}

fn is_subroutine(symbol: Option<Symbol>) -> bool
    ensures { result ≡ is_subroutine symbol }
{
    matches!(symbol, Some(Symbol::Subroutine(_)))
}

fn number_in(numbers: &NameIndex<'_>, name: &[u8]) -> Option<usize>
    ensures value { result ≡ number_in numbers.now name.now }
    ensures within { IfSome result (λ number. number < length numbers.now) }
{
    numbers.find(name)
}

fn callee(tables: &SymbolTable<'_>, numbers: &NameIndex<'_>, name: &[u8]) -> Option<usize>
    ensures value { result ≡ callee tables.now numbers.now name.now }
    ensures within { IfSome result (λ number. number < length numbers.now) }
{
    if is_subroutine(tables.symbol_named(name)) {
        number_in(numbers, name)
    } else {
        None
    }
}

fn call_of(tables: &SymbolTable<'_>, numbers: &NameIndex<'_>, mention: &Mention<'_>) -> Option<Call>
    ensures value { result ≡ call_of tables.now numbers.now mention.now }
    ensures within { IfSome result (λ call. (call.from < length numbers.now) × (call.to < length numbers.now)) }
{
    match mention.kind {
        MentionKind::Call => {
            match (
                number_in(numbers, mention.other),
                callee(tables, numbers, mention.name),
            ) {
                (Some(from), Some(to)) => Some(Call {
                    from,
                    to,
                    place: mention.place,
                }),
                _ => None,
            }
        }
        _ => None,
    }
}

fn calls_among(
    alloc: Global,
    tables: &SymbolTable<'_>,
    numbers: &NameIndex<'_>,
    mentions: &[Mention<'_>],
) -> Result<Vec<Call>, AllocError>
    ensures value { IfOk result (λ calls. calls.items ≡ calls_of tables.now numbers.now mentions.now) }
    ensures within { IfOk result (λ calls. AreWithin (length numbers.now) calls.items) }
{
    let mut calls = Vec::new(alloc);
    for mention in mentions {
        if let Some(call) = call_of(tables, numbers, mention) {
            calls.push(call)?;
        }
    }
    Ok(calls)
}

/// The numbers of subroutines by their names.
#[tactic(auto, unfolding(crate::specs::Reaching::numbered_names))]
pub fn numbers_of<'t>(alloc: Global, declared: &[Mention<'t>]) -> Result<NameIndex<'t>, AllocError>
    ensures names { IfOk result (λ numbers. numbers ≡ numbered_names (names_of declared.entry.now)) }
    ensures long { IfOk result (λ numbers. 13 ≤ length numbers) }
{
    let mut names = Vec::new(alloc);
    push_names(&mut names, &SUBROUTINE_NAMES)?;
    push_declared(&mut names, declared)?;
    NameIndex::of(alloc, names)
}

ghost use Rattle.vcl_check.specs.Declarations.{names_of};

fn push_declared<'t>(out: &mut Vec<&'t [u8]>, declared: &[Mention<'t>]) -> Result<(), AllocError>
    ensures { OnOk result (map (λ name. name.now) out.new.items ≡ map (λ name. name.now) out.old.items ++ names_of declared.now) }
{
    for mention in declared {
        out.push(mention.name)?;
    }
    Ok(())
}

/// The calls of a text between the subroutines of these numbers.
pub fn graph_of(
    alloc: Global,
    tables: &SymbolTable<'_>,
    numbers: &NameIndex<'_>,
    mentions: &[Mention<'_>],
) -> Result<CallGraph, AllocError>
    ensures calls { IfOk result (λ graph. graph.calls ≡ calls_of tables.now numbers.now mentions.now) }
    ensures count { IfOk result (λ graph. graph.count ≡ length numbers.now) }
{
    let calls = calls_among(alloc, tables, numbers, mentions)?;
    CallGraph::of(alloc, numbers.len(), calls)
}

/// What calls lead to from each built-in subroutine.
pub fn rows_of(alloc: Global, graph: &CallGraph) -> Result<Vec<Sequence<bool>>, AllocError>
    requires { 13 ≤ graph.now.count }
    ensures reached { IfOk result (λ rows. AreReached graph.now.calls 0 rows.items) }
    ensures thirteen { IfOk result (λ rows. length rows.items ≡ 13) }
{
    let mut rows = Vec::new(alloc);
    for number in 0..13 {
        rows.push(Sequence::from_vec(graph.reached(alloc, number)?))?;
    }
    Ok(rows)
}

fn is_marked(row: &Sequence<bool>, number: usize) -> bool
    ensures { result ≡ slice_index_or row.now number false }
{
    row.as_slice().get(number).copied().unwrap_or(false)
}

fn push_marking(
    out: &mut Vec<Subroutine>,
    rows: &[Sequence<bool>],
    subroutines: &[Subroutine],
    number: usize,
) -> Result<(), AllocError>
    ensures { OnOk result (out.new.items ≡ out.old.items ++ marking rows.now subroutines.now number) }
{
    match rows {
        [] => Ok(()),
        [row, rows @ ..] => match subroutines {
            [] => Ok(()),
            [subroutine, subroutines @ ..] => {
                if is_marked(row, number) {
                    out.push(*subroutine)?;
                }
                push_marking(out, rows, subroutines, number)
            }
        },
    }
}

fn reaching(
    alloc: Global,
    rows: &[Sequence<bool>],
    number: Option<usize>,
) -> Result<Vec<Subroutine>, AllocError>
    ensures { IfOk result (λ roots. roots.items ≡ reaching rows.now number) }
{
    let mut roots = Vec::new(alloc);
    match number {
        None => Ok(roots),
        Some(number) => {
            push_marking(&mut roots, rows, &SUBROUTINES, number)?;
            Ok(roots)
        }
    }
}

/// The built-in subroutines from which the subroutine of this name is reached.
pub fn roots_of(
    alloc: Global,
    numbers: &NameIndex<'_>,
    rows: &[Sequence<bool>],
    name: &[u8],
) -> Result<Vec<Subroutine>, AllocError>
    ensures { IfOk result (λ roots. roots.items ≡ roots_of numbers.now rows.now name.now) }
{
    match subroutine_named(name) {
        Some(subroutine) => {
            let mut roots = Vec::new(alloc);
            roots.push(subroutine)?;
            Ok(roots)
        }
        None => {
            if is_reserved(name) {
                Ok(Vec::new(alloc))
            } else {
                reaching(alloc, rows, number_in(numbers, name))
            }
        }
    }
}
