// Expressions from their parts.
ghost use Rattle.std.specs.Prelude.{◌≡◌, ◌∷◌, [], ◌<◌, ◌≤◌, IfOk};
ghost use Rattle.vcl_tree.specs.Phrase.{Either, Both, Not, Group, Called, Compared, Node, At, Named, chain, list_of};
ghost use Rattle.std.specs.Prelude.{Option};
ghost use Rattle.vcl_tree.specs.Phrase.{Bound, New, Return, Jump, Unset, If, ElseIf};
ghost use Rattle.vcl_tree.specs.ExpressionView.{sum_of};
ghost use Rattle.vcl_tree.specs.StatementView.{name_of, with_else};
ghost use Rattle.vcl_tree.specs.ExpressionForm.{looseness};
ghost use Rattle.vcl_tree.specs.Numbers.{opposite};
ghost use Rattle.vcl_parse.specs.Steps.{set_label};

use std::alloc::{AllocError, Global};
use units::{Text, out_of_memory};
use vcl_tree::{Action, Addend, Block, Branch, Comparison, Expression, Name, Operation, Statement};

/// Two values in boxes. Their types aren't known here, so that a value that is let go is no more than that.
fn boxed<A: Drop, B: Drop>(
    alloc: Global,
    first: A,
    second: B,
) -> Result<(Box<A>, Box<B>), AllocError>
    ensures first { IfOk result (λ x. x.0.value ≡ first) }
    ensures second { IfOk result (λ x. x.1.value ≡ second) }
{
    let first = Box::new(alloc, first)?;
    let second = Box::new(alloc, second)?;
    Ok((first, second))
}

#[tactic(auto, using(crate::proofs::Binding::binding))]
pub fn any_of(
    alloc: Global,
    first: Expression,
    mut others: Vec<Expression>,
) -> Result<Expression, AllocError>
    requires { looseness first < 5 }
    ensures made { IfOk result (λ e. e ≡ chain Either first others.items) }
{
    if others.is_empty() {
        return Ok(first);
    }
    let second = others.remove(0);
    let Ok((first, second)) = boxed(alloc, first, second) else {
        return Err(out_of_memory(others));
    };
    let operation = Operation::Any(first, second, others);
    Ok(Expression { operation })
}

#[tactic(auto, using(crate::proofs::Binding::binding))]
pub fn all_of(
    alloc: Global,
    first: Expression,
    mut others: Vec<Expression>,
) -> Result<Expression, AllocError>
    requires { looseness first < 4 }
    ensures made { IfOk result (λ e. e ≡ chain Both first others.items) }
    ensures binds { IfOk result (λ e. looseness e ≤ 4) }
{
    if others.is_empty() {
        return Ok(first);
    }
    let second = others.remove(0);
    let Ok((first, second)) = boxed(alloc, first, second) else {
        return Err(out_of_memory(others));
    };
    let operation = Operation::All(first, second, others);
    Ok(Expression { operation })
}

#[tactic(auto, using(crate::proofs::Binding::binding))]
pub fn sum_from(
    alloc: Global,
    first: Expression,
    mut others: Vec<Addend>,
) -> Result<Expression, AllocError>
    requires { looseness first < 1 }
    ensures made { IfOk result (λ e. e ≡ sum_of first others.items) }
    ensures binds { IfOk result (λ e. looseness e ≤ 1) }
{
    if others.is_empty() {
        return Ok(first);
    }
    let second = others.remove(0);
    let Ok((first, second)) = boxed(alloc, first, second) else {
        return Err(out_of_memory(others));
    };
    let operation = Operation::Sum(first, second, others);
    Ok(Expression { operation })
}

pub fn not_of(alloc: Global, place: u32, operand: Expression) -> Result<Expression, AllocError>
    ensures { IfOk result (λ e. e ≡ Node Not (At place) operand) }
{
    let operation = Operation::Not(place, Box::new(alloc, operand)?);
    Ok(Expression { operation })
}

pub fn group_of(alloc: Global, place: u32, operand: Expression) -> Result<Expression, AllocError>
    ensures { IfOk result (λ e. e ≡ Node Group (At place) operand) }
{
    let operation = Operation::Group(place, Box::new(alloc, operand)?);
    Ok(Expression { operation })
}

pub fn compared(
    alloc: Global,
    how: Comparison,
    left: Expression,
    right: Expression,
) -> Result<Expression, AllocError>
    ensures { IfOk result (λ e. e ≡ Node (Compared how) left right) }
{
    let (left, right) = boxed(alloc, left, right)?;
    let operation = Operation::Compare(how, left, right);
    Ok(Expression { operation })
}

/// The number with a minus sign before it.
#[tactic(auto, unfolding(vcl_tree::specs::Numbers::opposite))]
pub fn opposite_of(n: i64) -> i64
    ensures { result ≡ opposite n }
{
    n.wrapping_neg()
}

pub fn call_of(
    place: u32,
    name: &Text,
    arguments: Vec<Expression>,
) -> Result<Expression, AllocError>
    ensures { IfOk result (λ e. e ≡ Node Called (Named place name.now) (list_of arguments.items)) }
{
    match name.copy() {
        Ok(name) => {
            let operation = Operation::Call(place, name, arguments);
            Ok(Expression { operation })
        }
        Err(_) => Err(out_of_memory(arguments)),
    }
}

pub fn called_statement(
    place: u32,
    text: &Text,
    arguments: Vec<Expression>,
) -> Result<Statement, AllocError>
    ensures { IfOk result (λ s. s ≡ Node Called (Named place text.now) (list_of arguments.items)) }
{
    match text.copy() {
        Ok(text) => {
            let action = Action::Run(Name { place, text }, arguments);
            Ok(Statement { action })
        }
        Err(_) => Err(out_of_memory(arguments)),
    }
}

pub fn set_of(appends: bool, place: u32, name: Name, value: Expression) -> Statement
    ensures { result ≡ Node (set_label appends) (At place) (Node Bound (name_of name) value) }
{
    if appends {
        Statement {
            action: Action::Append(place, name, value),
        }
    } else {
        Statement {
            action: Action::Set(place, name, value),
        }
    }
}

pub fn unset_of(place: u32, name: Name) -> Statement
    ensures { result ≡ Node Unset (At place) (name_of name) }
{
    Statement {
        action: Action::Unset(place, name),
    }
}

pub fn jump_of(place: u32, name: Name) -> Statement
    ensures { result ≡ Node Jump (At place) (name_of name) }
{
    Statement {
        action: Action::Call(place, name),
    }
}

pub fn new_of(place: u32, name: Name, maker: Name, arguments: Vec<Expression>) -> Statement
    ensures { result ≡ Node New (At place) (Node Bound (name_of name) (Node Called (name_of maker) (list_of arguments.items))) }
{
    Statement {
        action: Action::New(place, name, maker, arguments),
    }
}

pub fn return_of(place: u32, word: Name) -> Statement
    ensures { result ≡ Node Return (At place) (name_of word) }
{
    Statement {
        action: Action::Return(place, word),
    }
}

pub fn return_with(place: u32, word: Name, arguments: Vec<Expression>) -> Statement
    ensures { result ≡ Node Return (At place) (Node Called (name_of word) (list_of arguments.items)) }
{
    Statement {
        action: Action::ReturnWith(place, word, arguments),
    }
}

pub fn if_of(
    alloc: Global,
    place: u32,
    first: Branch,
    others: Vec<Branch>,
    otherwise: Option<Block>,
) -> Result<Statement, AllocError>
    ensures { IfOk result (λ e. e ≡ with_else (chain ElseIf (Node If (At place) first) others.items) otherwise) }
{
    let first = Box::new(alloc, first)?;
    Ok(Statement {
        action: Action::If(place, first, others, otherwise),
    })
}
