// How signs bind.
use crate::refusals::tree_of;
use crate::statements::first_action;
use std::alloc::{AllocError, Global};
use vcl_tree::{Action, Addend, Addition, Comparison, Expression, Operation, Tree};

/// What an expression is made of.
pub fn expression_shown(alloc: Global, text: &str) -> Result<String, AllocError> {
    let whole = format!(in alloc; "vcl 4.1; sub x {{ set y = {text}; }}")?;
    let mut out = String::new(alloc);
    if let Ok(tree) = tree_of(alloc, whole.as_str()) {
        push_value(&mut out, &tree)?;
    }
    Ok(out)
}

// The expression to which the first statement sets something.
fn push_value(out: &mut String, tree: &Tree) -> Result<(), AllocError> {
    match first_action(tree) {
        Some(Action::Set(_, _, value)) => push_expression(out, value),
        _ => Ok(()),
    }
}

// What an expression is, and then its parts.
fn push_expression(out: &mut String, expression: &Expression) -> Result<(), AllocError> {
    out.push_str(word_of(expression))?;
    match &expression.operation {
        Operation::Any(first, second, others) => push_operands(
            out,
            first,
            second,
            others.as_slice(),
        ),
        Operation::All(first, second, others) => push_operands(
            out,
            first,
            second,
            others.as_slice(),
        ),
        Operation::Compare(how, left, right) => push_comparison(out, *how, left, right),
        Operation::Sum(first, second, others) => push_sum(out, first, second, others.as_slice()),
        Operation::Not(_, operand) => push_part(out, operand),
        Operation::Group(_, operand) => push_part(out, operand),
        Operation::Call(_, _, arguments) => push_all(out, arguments.as_slice()),
        _ => Ok(()),
    }
}

fn push_all(out: &mut String, parts: &[Expression]) -> Result<(), AllocError> {
    for part in parts {
        push_part(out, part)?;
    }
    Ok(())
}

fn push_operands(
    out: &mut String,
    first: &Expression,
    second: &Expression,
    others: &[Expression],
) -> Result<(), AllocError> {
    push_part(out, first)?;
    push_part(out, second)?;
    push_all(out, others)
}

fn push_comparison(
    out: &mut String,
    how: Comparison,
    left: &Expression,
    right: &Expression,
) -> Result<(), AllocError> {
    write!(out, " {how:?}")?;
    push_part(out, left)?;
    push_part(out, right)
}

fn push_sum(
    out: &mut String,
    first: &Expression,
    second: &Addend,
    others: &[Addend],
) -> Result<(), AllocError> {
    push_part(out, first)?;
    push_addend(out, second)?;
    for addend in others {
        push_addend(out, addend)?;
    }
    Ok(())
}

fn push_addend(out: &mut String, addend: &Addend) -> Result<(), AllocError> {
    out.push_str(match addend.sign {
        Addition::Plus => " +",
        Addition::Minus => " -",
    })?;
    push_part(out, &addend.term)
}

fn push_part(out: &mut String, part: &Expression) -> Result<(), AllocError> {
    out.push_str(" ")?;
    out.push_str(word_of(part))
}

fn word_of(expression: &Expression) -> &'static str {
    match &expression.operation {
        Operation::Any(_, _, _) => "any",
        Operation::All(_, _, _) => "all",
        Operation::Not(_, _) => "not",
        Operation::Compare(_, _, _) => "compare",
        Operation::Sum(_, _, _) => "sum",
        Operation::Group(_, _) => "group",
        Operation::String(_, _) => "string",
        Operation::Integer(_, n) if *n < 0 => "-integer",
        Operation::Integer(_, _) => "integer",
        Operation::Weight(_, _) => "weight",
        Operation::Duration(_, n) if *n < 0 => "-duration",
        Operation::Duration(_, _) => "duration",
        Operation::Name(_, _) => "name",
        Operation::Call(_, _, _) => "call",
    }
}
