//! Rows for what reads a VCL text: tokens, trees and checks, with a table of stored functions. A row's first word names the call,
//! and behind ` => ` stands what is to be said of the rest; a row of `parse` or `check` has it in front of its text (`refusals.rt`).
//! The program prints the rows that go otherwise, and how many rows there are.
#![tactic(auto)]

ghost use Rattle.std.specs.Prelude.{◌≡◌, ◌∷◌, [], map, IfOk, IsErr};
ghost use Rattle.vcl_values.specs.Values.{kind_of};
ghost use Rattle.vmod_host.specs.Meanings.{IsMeaning};

mod expressions;
mod faults;
mod items;
mod probes;
mod refusals;
mod repeated;
mod statements;
mod stored;
mod tokens;

use std::alloc::{AllocError, Global};
use std::io;
use vcl_values::{Kind, Value};
use vmod_host::{
    INTEGER, JarUse, STRLEN, Signature, TOLOWER, TOUPPER, Vmod, VmodTable, integer, strlen,
    tolower, toupper,
};

// The functions of `std`, and behind them those that are never called, whose signatures alone rows read.
fn main(rt: HostRuntime) -> io::Result<()> {
    let alloc = rt.alloc();
    let mut list = Vec::new(alloc);
    let text = [Kind::String];
    let signature = Signature::of(alloc, b"std", b"tolower", &text, Kind::String)?;
    list.push(Vmod {
        tag: TOLOWER,
        signature,
        call: small_of,
    })?;
    let signature = Signature::of(alloc, b"std", b"toupper", &text, Kind::String)?;
    list.push(Vmod {
        tag: TOUPPER,
        signature,
        call: capital_of,
    })?;
    let number = [Kind::String, Kind::Int];
    let signature = Signature::of(alloc, b"std", b"integer", &number, Kind::Int)?;
    list.push(Vmod {
        tag: INTEGER,
        signature,
        call: number_of,
    })?;
    let signature = Signature::of(alloc, b"std", b"strlen", &text, Kind::Int)?;
    list.push(Vmod {
        tag: STRLEN,
        signature,
        call: length_of,
    })?;
    let mut tag: u32 = 99;
    for signature in uncalled(alloc)? {
        list.push(Vmod {
            tag,
            signature,
            call: no_answer,
        })?;
        tag = tag.wrapping_add(1);
    }
    with_list(&rt, list)
}

// A second function of a name, two that are named like the method by which a director takes a backend, and four that no text
// reaches.
fn uncalled(alloc: Global) -> Result<Vec<Signature>, AllocError> {
    let mut list = Vec::new(alloc);
    push_function(
        alloc,
        &mut list,
        b"std",
        b"toupper",
        &[Kind::String],
        Kind::String,
    )?;
    let number = [Kind::String, Kind::Int];
    push_function(alloc, &mut list, b"m", b"add_backend", &number, Kind::Int)?;
    let text = [Kind::String, Kind::String];
    push_function(alloc, &mut list, b"n", b"add_backend", &text, Kind::Int)?;
    push_unreached(alloc, &mut list)?;
    push_cookies(alloc, &mut list)?;
    Ok(list)
}

// Functions that no text reaches: three of modules that are the language's own, and one that takes four arguments.
fn push_unreached(alloc: Global, list: &mut Vec<Signature>) -> Result<(), AllocError> {
    let text = [Kind::String];
    push_function(alloc, list, b"xkey", b"size", &text, Kind::Int)?;
    push_function(alloc, list, b"directors", b"size", &text, Kind::Int)?;
    push_function(alloc, list, b"directors", b"backend", &text, Kind::Int)?;
    let four = [Kind::String, Kind::String, Kind::String, Kind::String];
    push_function(alloc, list, b"std", b"four", &four, Kind::Int)
}

// The functions of the module `cookie`, and one that is passed four arguments with the jar's text.
fn push_cookies(alloc: Global, list: &mut Vec<Signature>) -> Result<(), AllocError> {
    let texts = [Kind::String, Kind::String, Kind::String];
    let changes = JarUse::Changes;
    for name in ["parse", "delete", "keep", "filter"] {
        push_cookie(alloc, list, changes, name, &texts[..1], Kind::String)?;
    }
    push_cookie(alloc, list, changes, "set", &texts[..2], Kind::String)?;
    push_cookie(alloc, list, changes, "clean", &texts[..0], Kind::String)?;
    push_cookie(alloc, list, JarUse::Asks, "get", &texts[..1], Kind::String)?;
    push_cookie(alloc, list, JarUse::Asks, "isset", &texts[..1], Kind::Bool)?;
    push_cookie(
        alloc,
        list,
        JarUse::Asks,
        "get_string",
        &texts[..0],
        Kind::String,
    )?;
    push_cookie(alloc, list, JarUse::Asks, "three", &texts, Kind::String)
}

fn push_cookie(
    alloc: Global,
    list: &mut Vec<Signature>,
    jar: JarUse,
    name: &str,
    takes: &[Kind],
    gives: Kind,
) -> Result<(), AllocError> {
    let signature = Signature::with_jar(alloc, jar, b"cookie", name.as_bytes(), takes, gives)?;
    list.push(signature)?;
    Ok(())
}

fn push_function(
    alloc: Global,
    list: &mut Vec<Signature>,
    module_name: &[u8],
    name: &[u8],
    takes: &[Kind],
    gives: Kind,
) -> Result<(), AllocError> {
    let signature = Signature::of(alloc, module_name, name, takes, gives)?;
    list.push(signature)?;
    Ok(())
}

fn with_list(rt: &HostRuntime, list: Vec<Vmod>) -> io::Result<()> {
    match VmodTable::of(rt.alloc(), list) {
        Ok(vmods) => read_rows(rt, &vmods),
        Err(_) => println!(rt; "no table of stored functions"),
    }
}

fn small_of(_tag: u32, alloc: Global, arguments: &[Value]) -> Result<Value, AllocError>
    requires { map kind_of arguments.now ≡ Kind.String ∷ [] }
    ensures { IfOk result (IsMeaning TOLOWER Kind.String arguments.now) }
{
    tolower(alloc, arguments)
}

fn capital_of(_tag: u32, alloc: Global, arguments: &[Value]) -> Result<Value, AllocError>
    requires { map kind_of arguments.now ≡ Kind.String ∷ [] }
    ensures { IfOk result (IsMeaning TOUPPER Kind.String arguments.now) }
{
    toupper(alloc, arguments)
}

fn number_of(_tag: u32, alloc: Global, arguments: &[Value]) -> Result<Value, AllocError>
    requires { map kind_of arguments.now ≡ Kind.String ∷ Kind.Int ∷ [] }
    ensures { IfOk result (IsMeaning INTEGER Kind.Int arguments.now) }
{
    integer(alloc, arguments)
}

fn length_of(_tag: u32, alloc: Global, arguments: &[Value]) -> Result<Value, AllocError>
    requires { map kind_of arguments.now ≡ Kind.String ∷ [] }
    ensures { IfOk result (IsMeaning STRLEN Kind.Int arguments.now) }
{
    strlen(alloc, arguments)
}

fn no_answer(_tag: u32, _alloc: Global, _arguments: &[Value]) -> Result<Value, AllocError>
    ensures { IsErr result }
{
    Err(AllocError)
}

fn read_rows(rt: &HostRuntime, vmods: &VmodTable) -> io::Result<()> {
    let mut count: u64 = 0;
    for line in rt.lines(rt.alloc()) {
        let line = line?;
        if !line.is_empty() && !line.starts_with('#') {
            count = count.saturating_add(1);
            if let Some(said) = otherwise(rt.alloc(), vmods, line.as_str())? {
                println!(rt; "{line}: {said}")?;
            }
        }
    }
    println!(rt; "{count} rows")
}

// What is said of the row, where it wants something else.
fn otherwise(alloc: Global, vmods: &VmodTable, line: &str) -> Result<Option<String>, AllocError> {
    let (word, rest) = line.split_once(' ').unwrap_or((line, ""));
    if word == "parse" || word == "check" {
        return refusals::otherwise(alloc, vmods, word, rest);
    }
    let (row, wanted) = rest.split_once(" => ").unwrap_or((rest, ""));
    let said = said(alloc, vmods, word, row)?;
    Ok(unless_same(said, wanted))
}

fn unless_same(said: String, wanted: &str) -> Option<String> {
    if said.as_str() == wanted {
        None
    } else {
        Some(said)
    }
}

fn said(alloc: Global, vmods: &VmodTable, word: &str, row: &str) -> Result<String, AllocError> {
    match word {
        "stored" | "tag" => stored::stored_shown(alloc, vmods, word, row),
        "expression" => expressions::expression_shown(alloc, row),
        "statement" => statements::statement_shown(alloc, row),
        "items" => items::items_shown(alloc, row),
        "tokens" => tokens::tokens_shown(alloc, row),
        "alone" => tokens::alone_shown(alloc),
        "probes" | "limits" => probes::servers_shown(alloc, vmods, word, row),
        "refusal" => faults::refusal_shown(alloc, row),
        "before" => faults::order_shown(alloc, row),
        _ => format!(in alloc; "no such row"),
    }
}
