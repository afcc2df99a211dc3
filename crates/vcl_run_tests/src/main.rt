//! Rows for what runs a VCL text: values of variables, runs of subroutines, and programs of texts. A row's first word names the
//! call, and behind ` => ` stands what is to be said of the rest. The program prints the rows that go otherwise, and how many rows
//! there are.
#![tactic(auto)]

ghost use Rattle.std.specs.Prelude.{map};
ghost use Rattle.vmod_host.specs.Stored.{entry_of};
ghost use Rattle.vcl_soundness.specs.Laws.{AreMeant};

mod functions;
mod plain_context;
mod programs;
mod repeats;
mod rows;
mod runs;
mod steps;
mod stores;
mod words;

use functions::{capital_of, length_of, length_of_copy, number_of, small_of};
use std::alloc::{AllocError, Global};
use std::io;
use vcl_soundness::standard_are_meant;
use vcl_values::Kind;
use vmod_host::{INTEGER, STRLEN, Signature, TOLOWER, TOUPPER, Vmod, VmodTable};

fn main(rt: HostRuntime) -> io::Result<()> {
    let alloc = rt.alloc();
    let text = [Kind::String];
    let lower = Signature::of(alloc, b"std", b"tolower", &text, Kind::String)?;
    let upper = Signature::of(alloc, b"std", b"toupper", &text, Kind::String)?;
    let number = Signature::of(
        alloc,
        b"std",
        b"integer",
        &[Kind::String, Kind::Int],
        Kind::Int,
    )?;
    let length = Signature::of(alloc, b"std", b"strlen", &text, Kind::Int)?;
    let copied = Signature::of(alloc, b"std", b"strlen", &text, Kind::Int)?;
    let usual = [
        Vmod {
            tag: TOLOWER,
            signature: lower,
            call: small_of,
        },
        Vmod {
            tag: TOUPPER,
            signature: upper,
            call: capital_of,
        },
        Vmod {
            tag: INTEGER,
            signature: number,
            call: number_of,
        },
        Vmod {
            tag: STRLEN,
            signature: length,
            call: length_of,
        },
    ];
    let copying = [Vmod {
        tag: STRLEN,
        signature: copied,
        call: length_of_copy,
    }];
    standard_are_meant();
    let usual = Vec::from_array(alloc, usual)?;
    let copying = Vec::from_array(alloc, copying)?;
    with_tables(&rt, usual, copying)
}

fn with_tables(rt: &HostRuntime, usual: Vec<Vmod>, copying: Vec<Vmod>) -> io::Result<()>
    requires usual { AreMeant (map (λ vmod. entry_of vmod.tag vmod.signature) usual.items) }
    requires copying { AreMeant (map (λ vmod. entry_of vmod.tag vmod.signature) copying.items) }
{
    match (
        VmodTable::of(rt.alloc(), usual),
        VmodTable::of(rt.alloc(), copying),
    ) {
        (Ok(usual), Ok(copying)) => read_rows(rt, &usual, &copying),
        _ => println!(rt; "no table of stored functions"),
    }
}

fn read_rows(rt: &HostRuntime, usual: &VmodTable, copying: &VmodTable) -> io::Result<()>
    requires usual { AreMeant usual.now.stored }
    requires copying { AreMeant copying.now.stored }
{
    let mut count: u64 = 0;
    for line in rt.lines(rt.alloc()) {
        let line = line?;
        if !line.is_empty() && !line.starts_with('#') {
            count = count.saturating_add(1);
            let (row, wanted) = line.split_once(" => ").unwrap_or((line.as_str(), ""));
            let said = said(rt.alloc(), usual, copying, row)?;
            if said.as_str() != wanted {
                println!(rt; "{row} => {said}")?;
            }
        }
    }
    println!(rt; "{count} rows")
}

fn said(
    alloc: Global,
    usual: &VmodTable,
    copying: &VmodTable,
    row: &str,
) -> Result<String, AllocError>
    requires usual { AreMeant usual.now.stored }
    requires copying { AreMeant copying.now.stored }
{
    let (word, rest) = row.split_once(' ').unwrap_or((row, ""));
    match word {
        "variable" | "field" => steps::name_shown(alloc, word, rest),
        "steps" => steps::steps_shown(alloc, rest),
        "program" => stores::program_shown(alloc, usual, rest),
        "built_in" => stores::built_in_shown(alloc, usual),
        _ => rows::run_shown(alloc, usual, copying, word, rest),
    }
}
