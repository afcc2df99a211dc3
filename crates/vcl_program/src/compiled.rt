// Sound texts in numbers, with what their runs need beside that.
ghost use Rattle.std.specs.Prelude.{◌≡◌, ◌<◌, IfOk, All, Contains, Some, length, map, slice_get};
ghost use Rattle.vcl_check.specs.Texts.{says, pattern_texts};
ghost use Rattle.vcl_program.specs.Codes.{code_of};

use crate::code::Code;
use crate::numbering::numbered;
use acl_match::Acl;
use std::alloc::{AllocError, Global};
use units::{Text, out_of_memory};
use vcl_check::Program;
use vcl_symbols::NameIndex;
use vcl_values::Pattern;

/// A sound text in numbers, with the patterns and the address lists that the checker built.
#[derive(Drop)]
pub struct Compiled {
    pub program: Program,
    pub code: Code,
    pattern_numbers: Vec<usize>,
    pub ghost numbered: { code ≡ code_of program.tree.items program.stored },
    ghost patterned: { map (λ k. slice_get (pattern_texts (says program.tree.items)) k) pattern_numbers.items ≡ map Some code.arena.patterns },
}

impl Compiled {
    /// A sound text in numbers. Only memory can be wanting.
    pub fn of(alloc: Global, program: Program) -> Result<Compiled, AllocError>
        ensures tree { IfOk result (λ compiled. compiled.program.tree ≡ program.tree) }
        ensures stored { IfOk result (λ compiled. compiled.program.stored ≡ program.stored) }
    {
        let Ok(code) = numbered(alloc, &program.tree, program.stored.as_slice()) else {
            return Err(out_of_memory(program));
        };
        let Ok(pattern_numbers) = numbers_of(alloc, &program, &code) else {
            return Err(out_of_memory((program, code)));
        };
        Ok(Compiled {
            program,
            code,
            pattern_numbers,
        })
    }

    /// The pattern of this number.
    pub fn pattern(&self, number: usize) -> &Pattern
        requires { number < length self.now.code.arena.patterns }
        ensures { slice_get self.now.code.arena.patterns number ≡ Some result.now }
    {
        match self.program.patterns().get(self.pattern_number(number)) {
            Some(pattern) => pattern,
            None => unreachable!(),
        }
    }

    // Its number among the patterns of the text.
    fn pattern_number(&self, number: usize) -> usize
        requires { number < length self.now.code.arena.patterns }
        ensures { slice_get (pattern_texts (says self.now.program.tree.items)) result ≡ slice_get self.now.code.arena.patterns number }
    {
        self.pattern_numbers[number]
    }

    /// The address list of this number.
    pub fn acl(&self, number: usize) -> &Acl
        requires { number < length self.now.code.acls }
        ensures { slice_get self.now.code.acls number ≡ Some result.now }
    {
        acl_at(self.program.acls(), number)
    }
}

fn acl_at(acls: &[Acl], number: usize) -> &Acl
    requires { number < length acls.now }
    ensures { slice_get acls.now number ≡ Some result.now }
{
    match acls.get(number) {
        Some(acl) => acl,
        None => unreachable!(),
    }
}

// For each pattern in numbers its number among those of the text.
fn numbers_of(alloc: Global, program: &Program, code: &Code) -> Result<Vec<usize>, AllocError>
    requires { code.now ≡ code_of program.now.tree.items program.now.stored }
    ensures { IfOk result (λ numbers. map (λ k. slice_get (pattern_texts (says program.now.tree.items)) k) numbers.items ≡ map Some code.now.arena.patterns) }
{
    let texts = program.pattern_texts(alloc)?;
    let numbers = places(alloc, &texts, code.arena.patterns.as_slice());
    drop(texts);
    numbers
}

fn places(alloc: Global, texts: &NameIndex<'_>, sources: &[Text]) -> Result<Vec<usize>, AllocError>
    requires { All (Contains texts.now) sources.now }
    ensures { IfOk result (λ numbers. map (λ k. slice_get texts.now k) numbers.items ≡ map Some sources.now) }
{
    let mut numbers = Vec::new(alloc);
    for source in sources {
        numbers.push(place(texts, source))?;
    }
    Ok(numbers)
}

fn place(texts: &NameIndex<'_>, source: &Text) -> usize
    requires { Contains texts.now source.now }
    ensures { slice_get texts.now result ≡ Some source.now }
{
    match texts.find(source.bytes()) {
        Some(number) => number,
        None => unreachable!(),
    }
}
