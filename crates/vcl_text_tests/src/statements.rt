// To which `if` an `else` belongs.
use crate::refusals::tree_of;
use std::alloc::{AllocError, Global};
use vcl_tree::{Action, Item, Statement, Tree};

/// What a statement does, and what stands in its blocks.
pub fn statement_shown(alloc: Global, text: &str) -> Result<String, AllocError> {
    let whole = format!(in alloc; "vcl 4.1; sub x {{ {text} }}")?;
    let mut out = String::new(alloc);
    if let Ok(tree) = tree_of(alloc, whole.as_str()) {
        push_first(&mut out, &tree)?;
    }
    Ok(out)
}

/// What the first statement of the first item, a subroutine, does.
pub fn first_action(tree: &Tree) -> Option<&Action> {
    match tree.items.as_slice().first()? {
        Item::Sub(_, _, block) => Some(&block.statements.as_slice().first()?.action),
        _ => None,
    }
}

// What the statement does, and then what stands in its blocks.
fn push_first(out: &mut String, tree: &Tree) -> Result<(), AllocError> {
    match first_action(tree) {
        Some(Action::If(_, first, others, otherwise)) => {
            push_branch(out, "if", first.block.statements.as_slice())?;
            for branch in others.as_slice() {
                push_branch(out, " elseif", branch.block.statements.as_slice())?;
            }
            match otherwise {
                Some(block) => push_branch(out, " else", block.statements.as_slice()),
                None => Ok(()),
            }
        }
        Some(action) => out.push_str(word_of(action)),
        None => Ok(()),
    }
}

fn push_branch(out: &mut String, word: &str, block: &[Statement]) -> Result<(), AllocError> {
    out.push_str(word)?;
    push_block(out, block)
}

fn push_block(out: &mut String, block: &[Statement]) -> Result<(), AllocError> {
    out.push_str(" {")?;
    for statement in block {
        out.push_str(" ")?;
        out.push_str(word_of(&statement.action))?;
    }
    out.push_str(" }")
}

fn word_of(action: &Action) -> &'static str {
    match action {
        Action::Set(_, _, _) => "set",
        Action::Append(_, _, _) => "append",
        Action::Unset(_, _) => "unset",
        Action::Call(_, _) => "call",
        Action::New(_, _, _, _) => "new",
        Action::If(_, _, _, None) => "if",
        Action::If(_, _, _, Some(_)) => "if-else",
        Action::Return(_, _) => "return",
        Action::ReturnWith(_, _, _) => "return-with",
        Action::Run(_, _) => "run",
    }
}
