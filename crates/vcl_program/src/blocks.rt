// The blocks of subroutines.
ghost use Rattle.std.specs.Prelude.{◌≡◌, ◌<◌, ◌∷◌, ◌++◌, [], IfOk, OnOk, length};
ghost use Rattle.vcl_program.specs.Blocks.{heads, own_block, with_own, all_own, no_bodies, in_front, body, with_body, all_bodies};

use crate::code::number_of;
use std::alloc::{AllocError, Global};
use units::{Sequence, Text};
use vcl_code::Arena;
use vcl_language::{Subroutine, is_reserved, subroutine_named};
use vcl_symbols::SymbolTable;
use vcl_tree::{Block, Item};

/// The blocks of the text's own subroutines, in its order.
pub fn own_blocks(
    alloc: Global,
    names: &SymbolTable<'_>,
    items: &[Item],
    arena: &mut Arena,
) -> Result<Sequence<usize>, AllocError>
    ensures { IfOk result (λ numbers. all_own names.now (heads [] arena.old) items.now ≡ heads numbers arena.new) }
{
    let mut numbers = Sequence::new(alloc);
    for item in items {
        own(alloc, names, item, arena, &mut numbers)?;
    }
    Ok(numbers)
}

fn own(
    alloc: Global,
    names: &SymbolTable<'_>,
    item: &Item,
    arena: &mut Arena,
    numbers: &mut Sequence<usize>,
) -> Result<(), AllocError>
    ensures { OnOk result (with_own names.now (heads numbers.old arena.old) item.now ≡ heads numbers.new arena.new) }
{
    match item {
        Item::Sub(_, name, block) => own_block(alloc, names, &name.text, block, arena, numbers),
        _ => Ok(()),
    }
}

fn own_block(
    alloc: Global,
    names: &SymbolTable<'_>,
    name: &Text,
    block: &Block,
    arena: &mut Arena,
    numbers: &mut Sequence<usize>,
) -> Result<(), AllocError>
    ensures { OnOk result (own_block names.now name.now block.now (heads numbers.old arena.old) ≡ heads numbers.new arena.new) }
{
    if is_reserved(name.bytes()) {
        return Ok(());
    }
    let number = arena.block(alloc, names, block, 0)?;
    numbers.push(number)?;
    Ok(())
}

/// The blocks of the built-in subroutines, by their numbers: the bodies of each one behind another.
pub fn built_in_blocks(
    alloc: Global,
    names: &SymbolTable<'_>,
    items: &[Item],
    arena: &mut Arena,
) -> Result<[usize; 13], AllocError>
    ensures { IfOk result (λ numbers. all_bodies names.now items.now (heads no_bodies arena.old) ≡ heads numbers arena.new) }
{
    let mut numbers = [0; 13];
    let mut left = items.len();
    'items: while left > 0 {
        left -= 1;
        in_item(alloc, names, &items[left], arena, &mut numbers)?;
    }
    Ok(numbers)
}

fn in_item(
    alloc: Global,
    names: &SymbolTable<'_>,
    item: &Item,
    arena: &mut Arena,
    numbers: &mut [usize; 13],
) -> Result<(), AllocError>
    ensures { OnOk result (with_body names.now item.now (heads numbers.old arena.old) ≡ heads numbers.new arena.new) }
{
    match item {
        Item::Sub(_, name, block) => {
            let subroutine = subroutine_named(name.text.bytes());
            body(alloc, names, subroutine, block, arena, numbers)
        }
        _ => Ok(()),
    }
}

fn body(
    alloc: Global,
    names: &SymbolTable<'_>,
    subroutine: Option<Subroutine>,
    block: &Block,
    arena: &mut Arena,
    numbers: &mut [usize; 13],
) -> Result<(), AllocError>
    ensures { OnOk result (body names.now subroutine block.now (heads numbers.old arena.old) ≡ heads numbers.new arena.new) }
{
    match subroutine {
        None => Ok(()),
        Some(subroutine) => in_front(alloc, names, block, number_of(subroutine), arena, numbers),
    }
}

fn in_front(
    alloc: Global,
    names: &SymbolTable<'_>,
    block: &Block,
    place: usize,
    arena: &mut Arena,
    numbers: &mut [usize; 13],
) -> Result<(), AllocError>
    requires { place < 13 }
    ensures { OnOk result (in_front names.now block.now place (heads numbers.old arena.old) ≡ heads numbers.new arena.new) }
{
    let number = arena.block(alloc, names, block, numbers[place])?;
    numbers[place] = number;
    Ok(())
}
