// What is told of expressions.
ghost use Rattle.std.specs.Prelude.{◌≡◌};
ghost use Rattle.vcl_tree.specs.ExpressionView.{sum_of, sum_label};
ghost use Rattle.vcl_tree.specs.Phrase as phrase;
ghost use Rattle.vcl_tree.specs.Phrase.{chain, list_of};
ghost use Rattle.vcl_check.specs.Least.{told_of};
ghost use Rattle.vcl_check.specs.Roles as role;
ghost use Rattle.vcl_check.specs.Roles.{form_of};

use crate::form::{Form, Use};
use crate::seen::{Literal, Told};
use crate::told::{faultless, tied, told_name};
use crate::views::{at_place, integer_weight, weight_seen, written};
use vcl_language::Subroutine;
use vcl_symbols::SymbolTable;
use vcl_tree::{Addend, Addition, Expression, Operation};
use vcl_values::Kind;

/// What is told of an expression that is read, in the subroutines from which it is reached.
#[cycle(expression)]
pub fn expression(tables: &SymbolTable<'_>, roots: &[Subroutine], e: &Expression) -> Told
    ensures { result ≡ told_of tables.now roots.now role.Value e.now }
{
    match &e.operation {
        Operation::Any(first, second, others) => junction(tables, roots, first, second, others),
        Operation::All(first, second, others) => junction(tables, roots, first, second, others),
        Operation::Sum(first, second, others) => sum(tables, roots, first, second, others),
        Operation::Call(place, name, arguments) => {
            let function = told_name(tables, roots, Use::Function, *place, name.bytes());
            let given = arguments_of(tables, roots, arguments);
            tied(roots, Form::Call, function, given)
        }
        Operation::Compare(how, a, b) => {
            let left = expression(tables, roots, a);
            let right = expression(tables, roots, b);
            tied(roots, Form::Compared(*how), left, right)
        }
        Operation::Not(place, operand) => {
            let sign = faultless(at_place(*place));
            let told = expression(tables, roots, operand);
            tied(roots, Form::Inverted, sign, told)
        }
        Operation::Group(place, inner) => {
            let sign = faultless(at_place(*place));
            tied(roots, Form::Grouped, sign, expression(tables, roots, inner))
        }
        Operation::String(place, _) => faultless(written(Kind::String, Literal::String, *place)),
        Operation::Integer(place, number) => {
            faultless(written(Kind::Int, integer_weight(*number), *place))
        }
        Operation::Weight(place, digits) => faultless(weight_seen(*place, digits.bytes())),
        Operation::Duration(place, _) => faultless(written(Kind::Duration, Literal::Other, *place)),
        Operation::Name(place, name) => told_name(tables, roots, Use::Read, *place, name.bytes()),
    }
}

// What is told of operands of truth, whichever of the two signs ties them.
#[cycle(expression)]
fn junction(
    tables: &SymbolTable<'_>,
    roots: &[Subroutine],
    first: &Expression,
    second: &Expression,
    others: &[Expression],
) -> Told
    ensures any { result ≡ told_of tables.now roots.now role.Value (chain phrase.Either (phrase.Node phrase.Either first.now second.now) others.now) }
    ensures all { result ≡ told_of tables.now roots.now role.Value (chain phrase.Both (phrase.Node phrase.Both first.now second.now) others.now) }
{
    let left = expression(tables, roots, first);
    let right = expression(tables, roots, second);
    let mut told = tied(roots, Form::Junction, left, right);
    'operands: for operand in others {
        let next = expression(tables, roots, operand);
        told = tied(roots, Form::Junction, told, next);
    }
    told
}

// What is told of a sum.
#[cycle(expression)]
fn sum(
    tables: &SymbolTable<'_>,
    roots: &[Subroutine],
    first: &Expression,
    second: &Addend,
    others: &[Addend],
) -> Told
    ensures { result ≡ told_of tables.now roots.now role.Value (sum_of (phrase.Node (sum_label second.now.sign) first.now second.now.term) others.now) }
{
    let left = expression(tables, roots, first);
    let right = expression(tables, roots, &second.term);
    let mut told = tied(roots, sum_form(second.sign), left, right);
    'terms: for addend in others {
        let term = expression(tables, roots, &addend.term);
        told = tied(roots, sum_form(addend.sign), told, term);
    }
    told
}

/// What is told of arguments.
#[cycle(expression)]
pub fn arguments_of(
    tables: &SymbolTable<'_>,
    roots: &[Subroutine],
    arguments: &[Expression],
) -> Told
    ensures { result ≡ told_of tables.now roots.now role.Arguments (list_of arguments.now) }
{
    let mut told = faultless(at_place(0));
    'arguments: for argument in arguments {
        let next = expression(tables, roots, argument);
        told = tied(roots, Form::Argument, told, next);
    }
    told
}

fn sum_form(sign: Addition) -> Form
    ensures { result ≡ form_of role.Value (sum_label sign) }
{
    match sign {
        Addition::Plus => Form::Added,
        Addition::Minus => Form::Subtracted,
    }
}
