// The members of directors.
ghost use Rattle.std.specs.Prelude.{◌≡◌, [], IfOk, OnOk};
ghost use Rattle.vcl_program.specs.Declarations.{one_more};
ghost use Rattle.vcl_program.specs.Members.{added_to, backend_in, weight_in, member, added_with, member_of, with_block, with_subroutine, with_item, with_items};

use crate::code::Member;
use std::alloc::{AllocError, Global};
use units::{Sequence, Text};
use vcl_check::{is_init, weight_of_decimal, weight_of_integer};
use vcl_code::{Read, read_of};
use vcl_symbols::{Symbol, SymbolTable};
use vcl_tree::{Action, Block, Expression, Item, Operation, Statement};

/// The members of all directors, in the text's order.
pub fn members(
    alloc: Global,
    names: &SymbolTable<'_>,
    items: &[Item],
) -> Result<Sequence<Member>, AllocError>
    ensures { IfOk result (λ members. members ≡ with_items names.now [] items.now) }
{
    let mut out = Sequence::new(alloc);
    for item in items {
        in_item(&mut out, names, item)?;
    }
    Ok(out)
}

fn in_item(
    out: &mut Sequence<Member>,
    names: &SymbolTable<'_>,
    item: &Item,
) -> Result<(), AllocError>
    ensures { OnOk result (out.new ≡ with_item names.now out.old item.now) }
{
    match item {
        Item::Sub(_, name, block) => in_subroutine(out, names, &name.text, block),
        _ => Ok(()),
    }
}

fn in_subroutine(
    out: &mut Sequence<Member>,
    names: &SymbolTable<'_>,
    name: &Text,
    block: &Block,
) -> Result<(), AllocError>
    ensures { OnOk result (out.new ≡ with_subroutine names.now name.now block.now out.old) }
{
    if is_init(name.bytes()) {
        in_block(out, names, block)
    } else {
        Ok(())
    }
}

fn in_block(
    out: &mut Sequence<Member>,
    names: &SymbolTable<'_>,
    block: &Block,
) -> Result<(), AllocError>
    ensures { OnOk result (out.new ≡ with_block names.now out.old block.now) }
{
    for statement in &block.statements {
        one_more(out, member_of(names, statement))?;
    }
    Ok(())
}

fn one_more(out: &mut Sequence<Member>, member: Option<Member>) -> Result<(), AllocError>
    ensures { OnOk result (out.new ≡ one_more out.old member) }
{
    match member {
        None => Ok(()),
        Some(member) => {
            out.push(member)?;
            Ok(())
        }
    }
}

fn member_of(names: &SymbolTable<'_>, statement: &Statement) -> Option<Member>
    ensures { result ≡ member_of names.now statement.now }
{
    match &statement.action {
        Action::Run(name, arguments) => {
            let director = added_to(names, name.text.bytes());
            added_with(names, director, arguments.as_slice())
        }
        Action::If(_, _, _, _) => None,
        Action::Set(_, _, _)
        | Action::Append(_, _, _)
        | Action::Unset(_, _)
        | Action::Call(_, _)
        | Action::New(_, _, _, _)
        | Action::Return(_, _)
        | Action::ReturnWith(_, _, _) => None,
    }
}

fn added_with(
    names: &SymbolTable<'_>,
    director: Option<usize>,
    arguments: &[Expression],
) -> Option<Member>
    ensures { result ≡ added_with names.now director arguments.now }
{
    match arguments {
        [backend] => member(director, backend_in(names, backend), 1),
        [backend, weight] => member(director, backend_in(names, backend), weight_in(weight)),
        _ => None,
    }
}

fn member(director: Option<usize>, backend: Option<usize>, weight: u32) -> Option<Member>
    ensures { result ≡ member director backend weight }
{
    match (director, backend) {
        (Some(director), Some(backend)) => Some(Member {
            director,
            backend,
            weight,
        }),
        _ => None,
    }
}

// The director to which a function of this name adds a backend.
fn added_to(names: &SymbolTable<'_>, name: &[u8]) -> Option<usize>
    ensures { result ≡ added_to names.now name.now }
{
    match names.object_named(b".add_backend", name) {
        Some(Symbol::Director(_, number)) => Some(number),
        _ => None,
    }
}

fn backend_in(names: &SymbolTable<'_>, e: &Expression) -> Option<usize>
    ensures { result ≡ backend_in names.now e.now }
{
    match &e.operation {
        Operation::Name(_, name) => match read_of(names, name.bytes()) {
            Read::Backend(number) => Some(number),
            _ => None,
        },
        Operation::Group(_, inner) => backend_in(names, inner),
        Operation::Any(_, _, _) => None,
        Operation::All(_, _, _) => None,
        Operation::Sum(_, _, _) => None,
        Operation::Not(_, _)
        | Operation::Compare(_, _, _)
        | Operation::String(_, _)
        | Operation::Integer(_, _)
        | Operation::Weight(_, _)
        | Operation::Duration(_, _)
        | Operation::Call(_, _, _) => None,
    }
}

fn weight_in(e: &Expression) -> u32
    ensures { result ≡ weight_in e.now }
{
    match &e.operation {
        Operation::Integer(_, number) => weight_of_integer(*number).unwrap_or(1),
        Operation::Weight(_, digits) => weight_of_decimal(digits.bytes()).unwrap_or(1),
        _ => 1,
    }
}
