// Texts in numbers.
use crate::numbers::push_step;
use std::alloc::{AllocError, Global};
use units::Text;
use vcl_check::check;
use vcl_language::Subroutine;
use vcl_parse::parse;
use vcl_program::{Code, Compiled, number_of, numbered};
use vcl_tree::VclError;
use vmod_host::VmodTable;

/// What a row wants to know of its text in numbers.
pub fn code_shown(alloc: Global, word: &str, text: &str) -> Result<String, AllocError> {
    match code(alloc, text) {
        Ok(code) => part_shown(alloc, word, &code),
        Err(_) => format!(in alloc; "no tree"),
    }
}

fn code(alloc: Global, text: &str) -> Result<Code, VclError> {
    let tree = parse(alloc, &Text::of(alloc, text.as_bytes())?)?;
    Ok(numbered(alloc, &tree, &[])?)
}

fn part_shown(alloc: Global, word: &str, code: &Code) -> Result<String, AllocError> {
    match word {
        "backends" => {
            let count = code.backends.as_slice().len();
            let default = code.default_backend;
            format!(in alloc; "{count}, the default one is {default}")
        }
        "network" => network_shown(alloc, code),
        "director" => director_shown(alloc, code),
        _ => blocks_shown(alloc, code),
    }
}

fn network_shown(alloc: Global, code: &Code) -> Result<String, AllocError> {
    match code.acls.as_slice() {
        [list, ..] => {
            let network = list.as_slice().first();
            format!(in alloc; "{network:?}")
        }
        [] => format!(in alloc; "no list"),
    }
}

fn director_shown(alloc: Global, code: &Code) -> Result<String, AllocError> {
    match code.directors.as_slice() {
        [director, ..] => {
            let kind = director.kind;
            let member = code.members.as_slice().first();
            format!(in alloc; "{kind:?} {member:?}")
        }
        [] => format!(in alloc; "no director"),
    }
}

// The first block of the text's own subroutines, those of vcl_recv and vcl_miss, and what the blocks 3 and 2 are.
fn blocks_shown(alloc: Global, code: &Code) -> Result<String, AllocError> {
    let mut out = first_blocks_shown(alloc, code)?;
    for number in [3, 2] {
        out.push_str(", ")?;
        push_step(&mut out, code.arena.blocks.as_slice().get(number))?;
    }
    Ok(out)
}

fn first_blocks_shown(alloc: Global, code: &Code) -> Result<String, AllocError> {
    let own = code.customs.as_slice().first();
    let recv = code.built_in[number_of(Subroutine::Recv)];
    let miss = code.built_in[number_of(Subroutine::Miss)];
    format!(in alloc; "{own:?} {recv} {miss}")
}

fn compiled(alloc: Global, text: &str) -> Result<Compiled, VclError> {
    match VmodTable::of(alloc, Vec::new(alloc)) {
        Ok(vmods) => compiled_by(alloc, text, &vmods),
        Err(_) => Err(VclError::NoMemory),
    }
}

fn compiled_by(alloc: Global, text: &str, vmods: &VmodTable) -> Result<Compiled, VclError> {
    let tree = parse(alloc, &Text::of(alloc, text.as_bytes())?)?;
    let program = check(alloc, tree, vmods)?;
    Ok(Compiled::of(alloc, program)?)
}

/// What the first address list and the first pattern of a sound text match.
pub fn matches_shown(alloc: Global, text: &str) -> Result<String, AllocError> {
    match compiled(alloc, text) {
        Ok(program) => matches_in(alloc, &program),
        Err(_) => format!(in alloc; "not sound"),
    }
}

fn matches_in(alloc: Global, program: &Compiled) -> Result<String, AllocError> {
    if program.code.acls.as_slice().is_empty()
        || program.code.arena.patterns.as_slice().is_empty()
    {
        return format!(in alloc; "no list or no pattern");
    }
    let near = program.acl(0).matches([10, 1, 2, 3]);
    let pattern = program.pattern(0);
    let some = pattern.is_match(alloc, &Text::of(alloc, b"/aaa")?)?;
    let other = pattern.is_match(alloc, &Text::of(alloc, b"/ab")?)?;
    format!(in alloc; "10.1.2.3 {near}, /aaa {some}, /ab {other}")
}
