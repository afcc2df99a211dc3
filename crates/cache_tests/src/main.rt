//! Rows for the plain cache (`flat_core`) and the lazy one (`lazy_core`) by the law (`cache_law`). Each line of the input has the name
//! of a call, what it is made with and, behind ` => `, what is to be said of it; where the lazy one says otherwise, that stands
//! behind a second ` => `. A row `core` makes new cores, of which the rows behind it speak. The program prints the rows that go
//! otherwise, and how many rows there are.
#![tactic(auto)]

mod stepping;

use core_rows::core_of;
use flat_core::FlatCore;
use lazy_core::LazyCore;
use std::io;

/// A plain and a lazy cache that are asked the same.
#[derive(Drop)]
struct Cores {
    flat: FlatCore,
    lazy: LazyCore,
}

fn main(rt: HostRuntime) -> io::Result<()> {
    let mut cores = Cores {
        flat: core_of(rt.alloc(), 0, 0)?,
        lazy: core_of(rt.alloc(), 0, 0)?,
    };
    let mut count: u64 = 0;
    for line in rt.lines(rt.alloc()) {
        let line = line?;
        if !line.starts_with('#') {
            count = count.saturating_add(1);
            check_row(rt, &mut cores, line.as_str())?;
        }
    }
    println!(rt; "{count} rows")
}

fn check_row(rt: HostRuntime, cores: &mut Cores, line: &str) -> io::Result<()> {
    let (row, wanted) = line.split_once(" => ").unwrap_or((line, ""));
    let (flat, lazy) = wanted.split_once(" => ").unwrap_or((wanted, wanted));
    let said = stepping::said(rt.alloc(), &mut cores.flat, row)?;
    if said.as_str() != flat {
        println!(rt; "{row} => {said}")?;
    }
    let said = stepping::said(rt.alloc(), &mut cores.lazy, row)?;
    if said.as_str() != lazy {
        println!(rt; "lazy: {row} => {said}")?;
    }
    Ok(())
}
