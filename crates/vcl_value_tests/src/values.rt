// What values are, and what comes of two.
use crate::samples::{text_shown, value_of};
use std::alloc::{AllocError, Global};
use vcl_values::{Comparison, Value, ValueError, compare, difference, sum};

/// A value's type, the value as a text, and as a condition, as a copy of it has them.
pub fn value_shown(alloc: Global, row: &str) -> Result<String, AllocError> {
    let value = value_of(alloc, row)?;
    copy_shown(alloc, &value)
}

fn copy_shown(alloc: Global, value: &Value) -> Result<String, AllocError> {
    let copy = value.copy()?;
    shown(alloc, &copy)
}

/// The same of a value.
pub fn shown(alloc: Global, value: &Value) -> Result<String, AllocError> {
    let kind = value.kind();
    let text = value.text(alloc)?;
    let truth = value.truth();
    format!(in alloc; "{kind:?} {text:?} {truth:?}")
}

/// What an operator between two values answers.
pub fn comparison_shown(alloc: Global, row: &str) -> Result<String, AllocError> {
    let (left, rest) = row.split_once('|').unwrap_or((row, ""));
    let (operator, right) = rest.split_once('|').unwrap_or((rest, ""));
    let left = value_of(alloc, left)?;
    let right = value_of(alloc, right)?;
    let answer = compare(operator_of(operator), &left, &right);
    format!(in alloc; "{answer:?}")
}

fn operator_of(word: &str) -> Comparison {
    match word {
        "==" => Comparison::Equal,
        "!=" => Comparison::NotEqual,
        "<" => Comparison::Less,
        "<=" => Comparison::LessOrEqual,
        ">" => Comparison::Greater,
        _ => Comparison::GreaterOrEqual,
    }
}

/// The sum of two values, or their difference, as a text.
pub fn sum_shown(alloc: Global, word: &str, row: &str) -> Result<String, AllocError> {
    let (left, right) = row.split_once('|').unwrap_or((row, ""));
    let left = value_of(alloc, left)?;
    let right = value_of(alloc, right)?;
    given_shown(alloc, given(alloc, word, &left, &right))
}

fn given(alloc: Global, word: &str, left: &Value, right: &Value) -> Result<Value, ValueError> {
    if word == "sum" {
        sum(alloc, left, right)
    } else {
        difference(left, right)
    }
}

fn given_shown(alloc: Global, given: Result<Value, ValueError>) -> Result<String, AllocError> {
    match given {
        Ok(value) => as_text(alloc, &value),
        Err(error) => format!(in alloc; "{error:?}"),
    }
}

fn as_text(alloc: Global, value: &Value) -> Result<String, AllocError> {
    let text = value.text(alloc)?;
    text_shown(alloc, &text)
}
