// Programs of texts, made once.
ghost use Rattle.std.specs.Prelude.{◌≡◌, ◌↔◌, IfOk, IfSome, IsSome, IsSomeAnd, IsTrue};
ghost use Rattle.vcl_library.specs.Functions.{std_functions};
ghost use Rattle.vcl_library.specs.Programs.{IsProgramOf};

use crate::backends::backend_of;
use crate::waiting::waiting_at;
use http_heads::Backend;
use std::alloc::{AllocError, Global};
use std::mem;
use units::{Shared, Text};
use vcl_runner::{Executable, Run};
use vcl_runs::Programs;
use vcl_soundness::{backends_are_there, program_never_stuck, standard_are_meant};
use vcl_store::program_of;
use vmod_host::VmodTable;
use wire::DialLimits;

/// A program with its VCL's number and the text that it was made of.
#[derive(Drop)]
pub struct Kept {
    pub vcl: u32,
    pub text: Text,
    pub program: Shared<Executable>,
    pub ghost is: { IsProgramOf text program.compiled.program.tree program.compiled.program.stored },
}

/// The two programs that were asked for last. Their texts may call the functions of the modules `std` and `cookie`.
#[derive(Drop)]
pub struct Library {
    latest: Option<Shared<Kept>>,
    other: Option<Shared<Kept>>,
    functions: Shared<VmodTable>,
    ghost standard: { functions.stored ≡ std_functions },
}

fn make(alloc: Global, functions: Shared<VmodTable>, text: &Text) -> Result<Executable, AllocError>
    requires { functions.stored ≡ std_functions }
    ensures { IfOk result (λ made. IsProgramOf text.now made.compiled.program.tree made.compiled.program.stored) }
{
    match program_of(alloc, text, &functions) {
        Ok(compiled) => {
            program_never_stuck(&compiled);
            backends_are_there(&compiled);
            standard_are_meant();
            Ok(Executable::of(compiled, functions))
        }
        Err(_) => Err(AllocError),
    }
}

impl Kept {
    /// The program of the text of the VCL of this number. A text that a cache keeps has one, so that memory alone can be wanting.
    pub fn of(
        alloc: Global,
        functions: Shared<VmodTable>,
        vcl: u32,
        text: &Text,
    ) -> Result<Shared<Kept>, AllocError>
        requires { functions.stored ≡ std_functions }
        ensures { IfOk result (λ kept. (kept.vcl ≡ vcl) × (kept.text ≡ text.now)) }
    {
        let program = Shared::new(alloc, make(alloc, functions, text)?)?;
        let kept = Kept {
            vcl,
            text: text.copy()?,
            program,
        };
        Shared::new(alloc, kept)
    }
}

// Whether this is the program of the VCL of this number and this text.
fn is_of(kept: &Option<Shared<Kept>>, vcl: u32, text: &Text) -> bool
    ensures { IsTrue result ↔ IsSomeAnd kept.now (λ kept. (kept.vcl ≡ vcl) × (kept.text ≡ text.now)) }
{
    match kept {
        Some(kept) => kept.vcl == vcl && kept.text == *text,
        None => false,
    }
}

impl Library {
    /// A library that keeps nothing.
    pub fn new(functions: Shared<VmodTable>) -> Library
        requires { functions.stored ≡ std_functions }
    {
        Library {
            latest: None,
            other: None,
            functions,
        }
    }

    /// A library that keeps this program.
    pub fn with(functions: Shared<VmodTable>, latest: Shared<Kept>) -> Library
        requires { functions.stored ≡ std_functions }
    {
        Library {
            latest: Some(latest),
            other: None,
            functions,
        }
    }

    // The program that is kept of the text of this VCL, which is the latest then; none where none is kept.
    fn find(&mut self, vcl: u32, text: &Text) -> Option<&Shared<Kept>>
        ensures same { IfSome result (λ kept. (kept.now.vcl ≡ vcl) × (kept.now.text ≡ text.now)) }
        ensures latest { IsSomeAnd self.old.latest (λ kept. (kept.vcl ≡ vcl) × (kept.text ≡ text.now)) → IsSome result }
        ensures other { IsSomeAnd self.old.other (λ kept. (kept.vcl ≡ vcl) × (kept.text ≡ text.now)) → IsSome result }
    {
        if is_of(&self.other, vcl, text) {
            mem::swap(&mut self.latest, &mut self.other);
        }
        if is_of(&self.latest, vcl, text) {
            self.latest.as_ref()
        } else {
            None
        }
    }

    // Keeps the program as the latest one, and lets the one before the last go.
    fn keep(&mut self, kept: Shared<Kept>)
        ensures { (self.new.latest ≡ Some kept) × (self.new.other ≡ self.old.latest) }
    {
        self.other = self.latest.take();
        self.latest = Some(kept);
    }
}

impl Programs<Run> for Library {
    ghost use Rattle.vcl_library.specs.Backends.{server_at};
    ghost use Rattle.vcl_library.specs.OneMeaning.{one-meaning};
    ghost use Rattle.vcl_library.specs.Programs.{IsProgramOf};
    ghost use Rattle.vcl_library.specs.Waiting.{waiting_at};

    ghost of_text = { λ text program. IsProgramOf text program.compiled.program.tree program.compiled.program.stored };

    ghost backends = { λ program name. server_at program.compiled.program.tree.items name };

    ghost times = { λ program name. waiting_at program.compiled.program.tree.items name };

    ghost one_meaning = { λ text one other p q. one-meaning text one.compiled.program.tree other.compiled.program.tree one.compiled.program.stored other.compiled.program.stored p q };

    fn program(
        &mut self,
        alloc: Global,
        vcl: u32,
        text: &Text,
    ) -> Result<Shared<Executable>, AllocError> {
        if let Some(kept) = self.find(vcl, text) {
            return kept.program.copy();
        }
        let kept = Kept::of(alloc, self.functions.copy()?, vcl, text)?;
        let program = kept.program.copy()?;
        self.keep(kept);
        Ok(program)
    }

    fn backend(alloc: Global, program: &Executable, name: &Text) -> Result<Backend, AllocError> {
        backend_of(alloc, program, name)
    }

    fn waiting(program: &Executable, name: &Text) -> DialLimits {
        waiting_at(program, name)
    }
}
