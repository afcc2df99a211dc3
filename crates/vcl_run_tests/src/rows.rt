// Runs, and what is done again and again.
ghost use Rattle.vcl_soundness.specs.Laws.{AreMeant};

use crate::programs::Subject;
use crate::repeats::repeated;
use crate::runs::shown;
use std::alloc::{AllocError, Global};
use vmod_host::VmodTable;

/// What the run of a row's statements shows: it has how many statements were run before, and the statements; or how many times
/// something is done again, and what. The functions are those of `std`, or `std.strlen` alone with a body that copies its text.
pub fn run_shown(
    alloc: Global,
    usual: &VmodTable,
    copying: &VmodTable,
    named: &str,
    row: &str,
) -> Result<String, AllocError>
    requires usual { AreMeant usual.now.stored }
    requires copying { AreMeant copying.now.stored }
{
    let (counted, statements) = row.split_once(' ').unwrap_or((row, ""));
    let counted = counted.parse::<u32>().unwrap_or(0);
    if named == "copying" {
        shown_by(alloc, copying, named, counted, statements)
    } else {
        shown_by(alloc, usual, named, counted, statements)
    }
}

fn shown_by(
    alloc: Global,
    functions: &VmodTable,
    named: &str,
    counted: u32,
    statements: &str,
) -> Result<String, AllocError>
    requires { AreMeant functions.now.stored }
{
    match Subject::named(named) {
        Some(subject) => shown(alloc, functions, subject, counted, statements),
        None => repeated(alloc, functions, named, counted, statements),
    }
}
