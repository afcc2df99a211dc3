// A whole text in numbers.
ghost use Rattle.std.specs.Prelude.{◌≡◌, [], IfOk, position};
ghost use Rattle.vcl_check.specs.Declarations.{known_of};
ghost use Rattle.vcl_program.specs.Blocks.{heads};
ghost use Rattle.vcl_program.specs.Codes.{is_default, default_of, own_of, built_in_of, code_in, code_of};
ghost use Rattle.vcl_program.specs.Members.{with_items};

use crate::blocks::{built_in_blocks, own_blocks};
use crate::code::{Code, Member};
use crate::declarations::{acls_of, backends_of, directors_of};
use crate::members::members;
use std::alloc::{AllocError, Global};
use units::{Sequence, out_of_memory};
use vcl_check::{Mention, says, symbol_table};
use vcl_code::Arena;
use vcl_symbols::SymbolTable;
use vcl_tree::{Item, Tree};
use vcl_values::Backend;
use vmod_host::Stored;

/// What a text is in numbers, with these stored functions.
pub fn numbered(alloc: Global, tree: &Tree, stored: &[Stored]) -> Result<Code, AllocError>
    ensures { IfOk result (λ code. code ≡ code_of tree.now.items stored.now) }
{
    let items = tree.items.as_slice();
    let said = says(alloc, items)?;
    let code = code_in(alloc, items, said.as_slice(), stored);
    drop(said);
    code
}

// The same, by what the text says of names.
fn code_in(
    alloc: Global,
    items: &[Item],
    said: &[Mention<'_>],
    stored: &[Stored],
) -> Result<Code, AllocError>
    ensures { IfOk result (λ code. code ≡ code_in (known_of said.now stored.now) said.now items.now) }
{
    let parts = parts_under(alloc, items, said, stored)?;
    let Ok(backends) = backends_of(alloc, items) else {
        return Err(out_of_memory(parts));
    };
    let Ok(acls) = acls_of(alloc, items) else {
        return Err(out_of_memory((parts, backends)));
    };
    let Ok(directors) = directors_of(alloc, said) else {
        return Err(out_of_memory((parts, (backends, acls))));
    };
    let default_backend = default_of(backends.as_slice());
    let built_in = parts.built_in;
    Ok(Code {
        arena: parts.arena,
        backends,
        default_backend,
        acls,
        directors,
        members: parts.members,
        customs: parts.customs,
        built_in,
    })
}

/// What is numbered by the names that a text declares.
#[derive(Drop)]
struct Parts {
    arena: Arena,
    members: Sequence<Member>,
    customs: Sequence<usize>,
    built_in: [usize; 13],
}

fn parts_under(
    alloc: Global,
    items: &[Item],
    said: &[Mention<'_>],
    stored: &[Stored],
) -> Result<Parts, AllocError>
    ensures members { IfOk result (λ parts. parts.members ≡ with_items (known_of said.now stored.now) [] items.now) }
    ensures customs { IfOk result (λ parts. parts.customs ≡ (own_of (known_of said.now stored.now) items.now).numbers) }
    ensures built_in { IfOk result (λ parts. built_in_of (known_of said.now stored.now) items.now ≡ heads parts.built_in parts.arena) }
{
    let names = symbol_table(alloc, said, stored)?;
    let parts = parts_of(alloc, &names, items);
    drop(names);
    parts
}

fn parts_of(alloc: Global, names: &SymbolTable<'_>, items: &[Item]) -> Result<Parts, AllocError>
    ensures members { IfOk result (λ parts. parts.members ≡ with_items names.now [] items.now) }
    ensures customs { IfOk result (λ parts. parts.customs ≡ (own_of names.now items.now).numbers) }
    ensures built_in { IfOk result (λ parts. built_in_of names.now items.now ≡ heads parts.built_in parts.arena) }
{
    let members = members(alloc, names, items)?;
    let Ok(mut arena) = Arena::new(alloc) else {
        return Err(out_of_memory(members));
    };
    let Ok(customs) = own_blocks(alloc, names, items, &mut arena) else {
        return Err(out_of_memory((members, arena)));
    };
    let Ok(built_in) = built_in_blocks(alloc, names, items, &mut arena) else {
        return Err(out_of_memory(((members, arena), customs)));
    };
    Ok(Parts {
        arena,
        members,
        customs,
        built_in,
    })
}

// The backend of this name, or else the first.
fn default_of(backends: &[Backend]) -> usize
    ensures { result ≡ default_of backends.now }
{
    match named_default(backends) {
        Some(number) => number,
        None => 0,
    }
}

fn named_default(backends: &[Backend]) -> Option<usize>
    ensures { result ≡ position is_default backends.now }
{
    backends.iter().position(|backend| is_default(backend))
}

fn is_default(backend: &Backend) -> bool
    ensures { result ≡ is_default backend.now }
{
    backend.name.bytes() == b"default".as_slice()
}
