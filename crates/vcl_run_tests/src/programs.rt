// Texts around the statements of a row.
ghost use Rattle.std.specs.Prelude.{◌≡◌, false, IfOk, IfSome};
ghost use Rattle.vcl_language.specs.Scopes.{has};
ghost use Rattle.vcl_language.specs.declared.scope.Scope.TheVariants.{Init};
ghost use Rattle.vcl_soundness.specs.Laws.{AreMeant};
ghost use Rattle.vcl_run_tests.specs.Runnable.{IsRunnable};

use std::alloc::{AllocError, Global};
use units::Text;
use vcl_language::Subroutine;
use vcl_program::Compiled;
use vcl_soundness::program_never_stuck;
use vcl_store::program_of;
use vmod_host::VmodTable;

/// The subroutine that a row is about.
#[derive(Clone, Copy)]
pub enum Subject {
    Recv,
    Hash,
    Synth,
    BackendResponse,
    BackendError,
}

impl Subject {
    /// By the word that a row begins with. `copying` is vcl_recv too, with another body of a stored function.
    pub fn named(name: &str) -> Option<Subject> {
        match name {
            "recv" | "copying" => Some(Subject::Recv),
            "hash" => Some(Subject::Hash),
            "synth" => Some(Subject::Synth),
            "response" => Some(Subject::BackendResponse),
            "error" => Some(Subject::BackendError),
            _ => None,
        }
    }

    pub fn subroutine(self) -> Subroutine
        ensures { has Init result ≡ false }
    {
        match self {
            Subject::Recv => Subroutine::Recv,
            Subject::Hash => Subroutine::Hash,
            Subject::Synth => Subroutine::Synth,
            Subject::BackendResponse => Subroutine::BackendResponse,
            Subject::BackendError => Subroutine::BackendError,
        }
    }

    fn name(self) -> &'static str {
        match self {
            Subject::Recv => "vcl_recv",
            Subject::Hash => "vcl_hash",
            Subject::Synth => "vcl_synth",
            Subject::BackendResponse => "vcl_backend_response",
            Subject::BackendError => "vcl_backend_error",
        }
    }

    // The word that a body of its own behind the statements returns.
    fn word(self) -> &'static str {
        match self {
            Subject::Recv => "hash",
            Subject::Hash => "lookup",
            _ => "deliver",
        }
    }
}

/// A text with these statements in the subroutine, and with a return behind them in a body of its own; None where it isn't
/// sound.
pub fn program(
    alloc: Global,
    functions: &VmodTable,
    subject: Subject,
    statements: &str,
) -> Result<Option<Box<Compiled>>, AllocError>
    requires { AreMeant functions.now.stored }
    ensures { IfOk result (λ made. IfSome made (λ program. IsRunnable functions.now.stored program.value)) }
{
    program_in(alloc, functions, &text_of(alloc, subject, statements)?)
}

/// The program of a text; None where it isn't sound.
pub fn program_in(
    alloc: Global,
    functions: &VmodTable,
    text: &Text,
) -> Result<Option<Box<Compiled>>, AllocError>
    requires { AreMeant functions.now.stored }
    ensures { IfOk result (λ made. IfSome made (λ program. IsRunnable functions.now.stored program.value)) }
{
    match program_of(alloc, text, functions) {
        Ok(program) => {
            program_never_stuck(&program);
            Ok(Some(Box::new(alloc, program)?))
        }
        Err(_) => Ok(None),
    }
}

fn text_of(alloc: Global, subject: Subject, statements: &str) -> Result<Text, AllocError> {
    let mut text = String::new(alloc);
    text.push_str("vcl 4.1; import std; import xkey; import directors; backend b none;")?;
    text.push_str(" acl near { \"10.0.0.0\"/24; ! \"10.0.0.2\"; }")?;
    text.push_str(" sub vcl_init { new d = directors.hash(); d.add_backend(b, 3); }")?;
    text.push_str(" sub tidy { set req.http.t = \"1\"; } sub ends { return (pass); }")?;
    push_body(&mut text, subject.name(), statements)?;
    push_return(&mut text, subject.name(), subject.word())?;
    Text::of(alloc, text.as_bytes())
}

// A grave accent stands for the end of a line.
fn push_body(text: &mut String, name: &str, statements: &str) -> Result<(), AllocError> {
    text.push_str(" sub ")?;
    text.push_str(name)?;
    text.push_str(" { ")?;
    for character in statements.chars() {
        text.push(if character == '`' { '\n' } else { character })?;
    }
    text.push_str(" }")?;
    Ok(())
}

fn push_return(text: &mut String, name: &str, word: &str) -> Result<(), AllocError> {
    text.push_str(" sub ")?;
    text.push_str(name)?;
    text.push_str(" { return (")?;
    text.push_str(word)?;
    text.push_str("); }")?;
    Ok(())
}
