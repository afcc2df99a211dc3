// Reads and runs again and again, for the script that takes their time.
ghost use Rattle.std.specs.Prelude.{IfOk, IfSome};
ghost use Rattle.vcl_soundness.specs.Laws.{AreMeant};
ghost use Rattle.vcl_run_tests.specs.Runnable.{IsRunnable};

use crate::plain_context::context;
use crate::programs::{Subject, program_in};
use crate::runs::push_run;
use http_heads::{RequestHead, read_request};
use row_settings::push_bytes;
use std::alloc::{AllocError, Global};
use std::mem;
use units::Text;
use vcl_context::Context;
use vcl_program::Compiled;
use vmod_host::VmodTable;

const REQUEST: &str = "GET /A HTTP/1.1\r\nHost: h\r\nUser-Agent: x\r\nAccept: */*\r\n\r\n";

/// What the last of so many readings of one request shows, or of readings with the values of variables that they give, or of
/// runs of vcl_recv behind them, in a text with these statements before the built-in ones.
pub fn repeated(
    alloc: Global,
    functions: &VmodTable,
    what: &str,
    times: u32,
    statements: &str,
) -> Result<String, AllocError>
    requires { AreMeant functions.now.stored }
{
    match what {
        "reads" => reads(alloc, times),
        "contexts" => contexts(alloc, times),
        "runs" => runs(alloc, functions, times, statements),
        _ => format!(in alloc; "no such row"),
    }
}

fn reads(alloc: Global, times: u32) -> Result<String, AllocError> {
    let mut shown = String::new(alloc);
    for _ in 0..times {
        shown.clear();
        push_bytes(&mut shown, request(alloc)?.url.bytes())?;
    }
    Ok(shown)
}

fn contexts(alloc: Global, times: u32) -> Result<String, AllocError> {
    let mut shown = String::new(alloc);
    for _ in 0..times {
        shown.clear();
        push_bytes(&mut shown, asked(alloc)?.request.head.url.bytes())?;
    }
    Ok(shown)
}

fn runs(
    alloc: Global,
    functions: &VmodTable,
    times: u32,
    statements: &str,
) -> Result<String, AllocError>
    requires { AreMeant functions.now.stored }
{
    match program(alloc, functions, statements)? {
        Some(program) => runs_of(alloc, functions, &program, times),
        None => format!(in alloc; "no program"),
    }
}

fn runs_of(
    alloc: Global,
    functions: &VmodTable,
    program: &Compiled,
    times: u32,
) -> Result<String, AllocError>
    requires { IsRunnable functions.now.stored program.now }
{
    let mut shown = String::new(alloc);
    for _ in 0..times {
        shown.clear();
        push_run(
            alloc,
            functions,
            program,
            Subject::Recv,
            asked(alloc)?,
            &mut shown,
        )?;
    }
    Ok(shown)
}

fn program(
    alloc: Global,
    functions: &VmodTable,
    statements: &str,
) -> Result<Option<Box<Compiled>>, AllocError>
    requires { AreMeant functions.now.stored }
    ensures { IfOk result (λ made. IfSome made (λ program. IsRunnable functions.now.stored program.value)) }
{
    let text = format!(in alloc;
        "vcl 4.1; import std; backend b none; sub vcl_recv {{ {statements} }}"
    )?;
    program_in(alloc, functions, &Text::of(alloc, text.as_bytes())?)
}

fn asked(alloc: Global) -> Result<Box<Context>, AllocError> {
    let mut context = context(alloc)?;
    drop(mem::replace(&mut context.request.head, request(alloc)?));
    Ok(context)
}

fn request(alloc: Global) -> Result<RequestHead, AllocError> {
    match read_request(alloc, REQUEST.as_bytes()) {
        Ok(Some((head, _))) => Ok(head),
        _ => Err(AllocError),
    }
}
