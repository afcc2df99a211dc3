// Expressions and blocks by number.
use crate::names::names;
use std::alloc::{AllocError, Global};
use units::Text;
use vcl_code::{Action, Arena, Arguments, Block, Node};
use vcl_parse::parse;
use vcl_tree::{Action as Written, Block as WrittenBlock, Expression, Item, Tree, VclError};

/// The number of the value that a statement sets something to, how many patterns there are, and the nodes that it is made of.
pub fn value_shown(alloc: Global, expression: &str) -> Result<String, AllocError> {
    let text = format!(in alloc; "vcl 4.1; sub x {{ set y = {expression}; }}")?;
    match tree(alloc, text.as_str()) {
        Ok(tree) => value_in(alloc, &tree),
        Err(_) => format!(in alloc; "no tree"),
    }
}

/// The statements of a block, from the first to the end.
pub fn block_shown(alloc: Global, statements: &str) -> Result<String, AllocError> {
    let text = format!(in alloc; "vcl 4.1; sub x {{ {statements} }}")?;
    match tree(alloc, text.as_str()) {
        Ok(tree) => block_in(alloc, &tree),
        Err(_) => format!(in alloc; "no tree"),
    }
}

fn tree(alloc: Global, text: &str) -> Result<Tree, VclError> {
    parse(alloc, &Text::of(alloc, text.as_bytes())?)
}

fn value_in(alloc: Global, tree: &Tree) -> Result<String, AllocError> {
    match value_of(tree) {
        Some(value) => nodes_shown(alloc, value),
        None => format!(in alloc; "no value"),
    }
}

fn block_in(alloc: Global, tree: &Tree) -> Result<String, AllocError> {
    match block_of(tree) {
        Some(block) => steps_shown(alloc, block),
        None => format!(in alloc; "no block"),
    }
}

// The block of the first item, a subroutine.
fn block_of(tree: &Tree) -> Option<&WrittenBlock> {
    match tree.items.as_slice() {
        [Item::Sub(_, _, block), ..] => Some(block),
        _ => None,
    }
}

// What the first statement sets something to.
fn value_of(tree: &Tree) -> Option<&Expression> {
    match &block_of(tree)?.statements.as_slice().first()?.action {
        Written::Set(_, _, value) => Some(value),
        _ => None,
    }
}

fn nodes_shown(alloc: Global, value: &Expression) -> Result<String, AllocError> {
    let mut arena = Arena::new(alloc)?;
    let number = number_in(alloc, &mut arena, value)?;
    arena_shown(alloc, number, &arena)
}

fn number_in(alloc: Global, arena: &mut Arena, value: &Expression) -> Result<usize, AllocError> {
    let names = names(alloc)?;
    arena.expression(alloc, &names, value)
}

fn arena_shown(alloc: Global, number: usize, arena: &Arena) -> Result<String, AllocError> {
    let patterns = arena.patterns.as_slice().len();
    let mut out = format!(in alloc; "{number} {patterns}")?;
    for node in arena.nodes.as_slice() {
        push_node(&mut out, node)?;
    }
    Ok(out)
}

fn push_node(out: &mut String, node: &Node) -> Result<(), AllocError> {
    match node {
        Node::ReadField(message, name) => write!(out, ", field {message:?} {name}"),
        Node::Matches(text, pattern, is) => write!(out, ", matches {text} {pattern} {is}"),
        Node::Backend(number) => write!(out, ", backend {number}"),
        _ => out.push_str(", another node"),
    }
}

fn steps_shown(alloc: Global, block: &WrittenBlock) -> Result<String, AllocError> {
    let mut arena = Arena::new(alloc)?;
    let first = first_in(alloc, &mut arena, block)?;
    steps_from(alloc, arena.blocks.as_slice(), first)
}

fn first_in(alloc: Global, arena: &mut Arena, block: &WrittenBlock) -> Result<usize, AllocError> {
    let names = names(alloc)?;
    arena.block(alloc, &names, block, 0)
}

// A block and those that follow, at most nine.
fn steps_from(alloc: Global, blocks: &[Block], first: usize) -> Result<String, AllocError> {
    let mut out = String::new(alloc);
    push_step(&mut out, blocks.get(first))?;
    let mut number = first;
    for _ in 0..9 {
        let Some(Block::Then(_, next)) = blocks.get(number) else {
            break;
        };
        number = *next;
        push_next(&mut out, blocks.get(number))?;
    }
    Ok(out)
}

fn push_next(out: &mut String, block: Option<&Block>) -> Result<(), AllocError> {
    out.push_str(", ")?;
    push_step(out, block)
}

/// A block: its statement, and the number of the block that follows.
pub fn push_step(out: &mut String, block: Option<&Block>) -> Result<(), AllocError> {
    match block {
        Some(Block::Then(Action::Set(variable, value), next)) => {
            write!(out, "set {variable:?} {value} then {next}")
        }
        Some(Block::Then(Action::Call(called), next)) => {
            write!(out, "call {called} then {next}")
        }
        Some(Block::Then(Action::Return(word, Arguments::Zero), next)) => {
            write!(out, "return {word:?} then {next}")
        }
        Some(Block::End) => out.push_str("end"),
        _ => out.push_str("another block"),
    }
}
