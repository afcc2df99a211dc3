// Expressions.
#![tactic(auto, using(crate::proofs::Reading::reading))]

ghost use Rattle.std.specs.Prelude.{◌≡◌, ◌∷◌, [], ◌<◌, ◌≤◌, ℕ, Bool, false, List, IfOk, MatchOption, MatchResult, length};
ghost use Rattle.vcl_tree.specs.Phrase.{Named, list_of};
ghost use Rattle.vcl_tree.specs.declared.token.Sign.TheVariants as sign;
ghost use Rattle.vcl_parse.specs.Machine.{Read, Go, Any, All, Negation, Comparing, Sum, Term, Negated, Arguments, Argument, MoreSum, Compares, Calls};
ghost use Rattle.vcl_parse.specs.Steps.{IsRead, IsReadOn, IsStopped, ReadsOne, StopsOne, Adds, ComparesWith, Ends, HasNoWeight, first_starts_term};
ghost use Rattle.vcl_tree.specs.Signs.{first_is};
ghost use Rattle.vcl_tree.specs.ExpressionForm.{looseness};

use crate::lists::{add, only};
use crate::making::{all_of, any_of, call_of, compared, group_of, not_of, opposite_of, sum_from};
use crate::names::has_zero_fraction;
use crate::signs::{begins, behind_sign, ended, enter, split};
use crate::starts::comparison;
use crate::stop::{Stop, given_up};
use std::alloc::Global;
use units::Text;
use vcl_tree::{Addend, Addition, Comparison, Expression, Operation, Sign, Token, TokenKind};

/// An expression at the front of the tokens.
#[cycle(expression)]
pub fn any(alloc: Global, depth: u32, tokens: &[Token]) -> Result<(Expression, &[Token]), Stop>
    ensures { MatchResult result
        (λ x. IsRead (Read Any) depth tokens.now x.0 x.1.now)
        (λ why. IsStopped (Read Any) depth tokens.now why) }
{
    let (first, mut rest) = all(alloc, depth, tokens)?;
    let mut others = Vec::new(alloc);
    while let Some((_, behind)) = behind_sign(rest, Sign::Or) {
        let (operand, later) = match all(alloc, depth, behind) {
            Ok(read) => read,
            Err(why) => return Err(given_up((first, others), why)),
        };
        if let Err(why) = add(&mut others, operand) {
            return Err(given_up((first, others), why));
        }
        rest = later;
    }
    Ok((any_of(alloc, first, others)?, rest))
}

#[cycle(expression)]
fn all(alloc: Global, depth: u32, tokens: &[Token]) -> Result<(Expression, &[Token]), Stop>
    ensures read { MatchResult result
        (λ x. IsRead (Read All) depth tokens.now x.0 x.1.now)
        (λ why. IsStopped (Read All) depth tokens.now why) }
    ensures binds { IfOk result (λ x. looseness x.0 ≤ 4) }
{
    let (first, mut rest) = negation(alloc, depth, tokens)?;
    let mut others = Vec::new(alloc);
    while let Some((_, behind)) = behind_sign(rest, Sign::And) {
        let (operand, later) = match negation(alloc, depth, behind) {
            Ok(read) => read,
            Err(why) => return Err(given_up((first, others), why)),
        };
        if let Err(why) = add(&mut others, operand) {
            return Err(given_up((first, others), why));
        }
        rest = later;
    }
    Ok((all_of(alloc, first, others)?, rest))
}

#[cycle(expression)]
fn negation(alloc: Global, depth: u32, tokens: &[Token]) -> Result<(Expression, &[Token]), Stop>
    ensures read { MatchResult result
        (λ x. IsRead (Read Negation) depth tokens.now x.0 x.1.now)
        (λ why. IsStopped (Read Negation) depth tokens.now why) }
    ensures binds { IfOk result (λ x. looseness x.0 ≤ 3) }
{
    let Some((place, behind)) = behind_sign(tokens, Sign::Not) else {
        return comparing(alloc, depth, tokens);
    };
    let (operand, rest) = comparing(alloc, depth, behind)?;
    Ok((not_of(alloc, place, operand)?, rest))
}

#[cycle(expression)]
fn comparing(alloc: Global, depth: u32, tokens: &[Token]) -> Result<(Expression, &[Token]), Stop>
    ensures read { MatchResult result
        (λ x. IsRead (Read Comparing) depth tokens.now x.0 x.1.now)
        (λ why. IsStopped (Read Comparing) depth tokens.now why) }
    ensures binds { IfOk result (λ x. looseness x.0 ≤ 2) }
{
    let (left, rest) = sum(alloc, depth, tokens)?;
    let Some((how, behind)) = comparison_at(rest) else {
        return Ok((left, rest));
    };
    match sum(alloc, depth, behind) {
        Ok((right, later)) => Ok((compared(alloc, how, left, right)?, later)),
        Err(why) => Err(given_up(left, why)),
    }
}

#[cycle(expression)]
fn sum(alloc: Global, depth: u32, tokens: &[Token]) -> Result<(Expression, &[Token]), Stop>
    ensures read { MatchResult result
        (λ x. IsRead (Read Sum) depth tokens.now x.0 x.1.now)
        (λ why. IsStopped (Read Sum) depth tokens.now why) }
    ensures binds { IfOk result (λ x. looseness x.0 ≤ 1) }
{
    let (first, mut rest) = term(alloc, depth, tokens)?;
    let mut others = Vec::new(alloc);
    while let Some((sign, behind)) = addition_at(rest) {
        let (term, later) = match term(alloc, depth, behind) {
            Ok(read) => read,
            Err(why) => return Err(given_up((first, others), why)),
        };
        if let Err(why) = add(&mut others, Addend { sign, term }) {
            return Err(given_up((first, others), why));
        }
        rest = later;
    }
    Ok((sum_from(alloc, first, others)?, rest))
}

#[cycle(expression)]
fn term(alloc: Global, depth: u32, tokens: &[Token]) -> Result<(Expression, &[Token]), Stop>
    ensures read { MatchResult result
        (λ x. IsRead (Read Term) depth tokens.now x.0 x.1.now)
        (λ why. IsStopped (Read Term) depth tokens.now why) }
    ensures binds { IfOk result (λ x. looseness x.0 ≤ 0) }
{
    let Some((place, behind)) = behind_sign(tokens, Sign::OpenParenthesis) else {
        return plain_term(alloc, depth, tokens);
    };
    let deeper = enter(depth, tokens.len())?;
    let (inner, rest) = any(alloc, deeper, behind)?;
    let (inner, rest) = ended(inner, rest, Sign::CloseParenthesis)?;
    Ok((group_of(alloc, place, inner)?, rest))
}

// A term that no parenthesis begins.
#[cycle(expression)]
fn plain_term(alloc: Global, depth: u32, tokens: &[Token]) -> Result<(Expression, &[Token]), Stop>
    requires { first_is sign.OpenParenthesis tokens.now ≡ false }
    ensures read { MatchResult result
        (λ x. IsRead (Read Term) depth tokens.now x.0 x.1.now)
        (λ why. IsStopped (Read Term) depth tokens.now why) }
    ensures binds { IfOk result (λ x. looseness x.0 ≤ 0) }
{
    let Some((first, rest)) = split(tokens) else {
        return Err(Stop::Syntax(0));
    };
    match &first.kind {
        TokenKind::Name(name) => named(alloc, depth, first.place, name, rest),
        TokenKind::Word(_, name) => named(alloc, depth, first.place, name, rest),
        TokenKind::String(text) => {
            let operation = Operation::String(first.place, text.copy()?);
            Ok((Expression { operation }, rest))
        }
        TokenKind::Integer(n) => {
            let operation = Operation::Integer(first.place, *n);
            Ok((Expression { operation }, rest))
        }
        TokenKind::Duration(n) => {
            let operation = Operation::Duration(first.place, *n);
            Ok((Expression { operation }, rest))
        }
        TokenKind::Decimal(_) => Err(Stop::Syntax(tokens.len())),
        TokenKind::Sign(sign) => {
            if *sign != Sign::Minus {
                return Err(Stop::Syntax(tokens.len()));
            }
            negated(first.place, rest)
        }
    }
}

// A name that is read, with its arguments if they stand there.
#[cycle(expression)]
fn named<'a>(
    alloc: Global,
    depth: u32,
    place: u32,
    name: &Text,
    tokens: &'a [Token],
) -> Result<(Expression, &'a [Token]), Stop>
    ensures read { MatchResult result
        (λ x. IsReadOn (Go Calls) depth (Named place name.now) tokens.now x.0 x.1.now)
        (λ why. IsStopped (Go Calls) depth tokens.now why) }
    ensures binds { IfOk result (λ x. looseness x.0 ≤ 0) }
{
    if !begins(tokens, Sign::OpenParenthesis) {
        let operation = Operation::Name(place, name.copy()?);
        return Ok((Expression { operation }, tokens));
    }
    let (arguments, rest) = arguments(alloc, depth, false, tokens)?;
    Ok((call_of(place, name, arguments)?, rest))
}

/// Arguments in parentheses, of which all but the first may be weights where that is said.
#[cycle(expression)]
pub fn arguments(
    alloc: Global,
    depth: u32,
    weight: bool,
    tokens: &[Token],
) -> Result<(Vec<Expression>, &[Token]), Stop>
    ensures { MatchResult result
        (λ x. IsRead (Read (Arguments weight)) depth tokens.now (list_of x.0.items) x.1.now)
        (λ why. IsStopped (Read (Arguments weight)) depth tokens.now why) }
{
    let Some((_, behind)) = behind_sign(tokens, Sign::OpenParenthesis) else {
        return Err(Stop::Syntax(tokens.len()));
    };
    let deeper = enter(depth, tokens.len())?;
    if let Some((_, rest)) = behind_sign(behind, Sign::CloseParenthesis) {
        return Ok((Vec::new(alloc), rest));
    }
    let (first, mut rest) = any(alloc, deeper, behind)?;
    let mut arguments = only(alloc, first)?;
    while let Some((_, behind)) = behind_sign(rest, Sign::Comma) {
        let (further, later) = match argument(alloc, deeper, weight, behind) {
            Ok(read) => read,
            Err(why) => return Err(given_up(arguments, why)),
        };
        if let Err(why) = add(&mut arguments, further) {
            return Err(given_up(arguments, why));
        }
        rest = later;
    }
    ended(arguments, rest, Sign::CloseParenthesis)
}

#[cycle(expression)]
fn argument(
    alloc: Global,
    depth: u32,
    weight: bool,
    tokens: &[Token],
) -> Result<(Expression, &[Token]), Stop>
    ensures { MatchResult result
        (λ x. IsRead (Read (Argument weight)) depth tokens.now x.0 x.1.now)
        (λ why. IsStopped (Read (Argument weight)) depth tokens.now why) }
{
    match weight_at(weight, tokens)? {
        Some((expression, rest)) => Ok((expression, rest)),
        None => any(alloc, depth, tokens),
    }
}

// A decimal that is a weight, where there may be one.
fn weight_at(weight: bool, tokens: &[Token]) -> Result<Option<(Expression, &[Token])>, Stop>
    ensures { MatchResult result
        (λ found. MatchOption found
        (HasNoWeight weight tokens.now)
        (λ x. ReadsOne (Read (Argument weight)) tokens.now x.0 x.1.now))
        (λ why. why ≡ Stop.NoMemory) }
{
    let Some((first, rest)) = split(tokens) else {
        return Ok(None);
    };
    let TokenKind::Decimal(digits) = &first.kind else {
        return Ok(None);
    };
    if !weight || !has_zero_fraction(digits.bytes()) {
        return Ok(None);
    }
    let operation = Operation::Weight(first.place, digits.copy()?);
    Ok(Some((Expression { operation }, rest)))
}

// The integer or the duration behind a minus sign at this place.
fn negated(place: u32, tokens: &[Token]) -> Result<(Expression, &[Token]), Stop>
    ensures read { MatchResult result
        (λ x. ReadsOne (Read (Negated place)) tokens.now x.0 x.1.now)
        (λ why. StopsOne (Read (Negated place)) tokens.now why) }
    ensures binds { IfOk result (λ x. looseness x.0 ≤ 0) }
{
    let Some((first, rest)) = split(tokens) else {
        return Err(Stop::Syntax(0));
    };
    let operation = match first.kind {
        TokenKind::Integer(n) => Operation::Integer(place, opposite_of(n)),
        TokenKind::Duration(n) => Operation::Duration(place, opposite_of(n)),
        _ => return Err(Stop::Syntax(tokens.len())),
    };
    Ok((Expression { operation }, rest))
}

// The sign of a further term, and what stands behind it; a sign that is missing before a term is a plus.
fn addition_at(tokens: &[Token]) -> Option<(Addition, &[Token])>
    ensures on { MatchOption result (Ends MoreSum tokens.now) (λ x. Adds tokens.now x.0 x.1.now) }
    ensures shorter { MatchOption result (Ends MoreSum tokens.now) (λ x. length x.1.now ≤ length tokens.now) }
{
    if let Some((_, rest)) = behind_sign(tokens, Sign::Plus) {
        return Some((Addition::Plus, rest));
    }
    if let Some((_, rest)) = behind_sign(tokens, Sign::Minus) {
        return Some((Addition::Minus, rest));
    }
    if begins_term(tokens) {
        return Some((Addition::Plus, tokens));
    }
    None
}

fn begins_term(tokens: &[Token]) -> bool
    ensures { result ≡ first_starts_term tokens.now }
{
    match split(tokens) {
        None => false,
        Some((first, _)) => match first.kind {
            TokenKind::Decimal(_) => false,
            TokenKind::Sign(sign) => sign == Sign::OpenParenthesis,
            _ => true,
        },
    }
}

fn comparison_at(tokens: &[Token]) -> Option<(Comparison, &[Token])>
    ensures { MatchOption result (Ends Compares tokens.now) (λ x. (length x.1.now < length tokens.now) × ComparesWith tokens.now x.0 x.1.now) }
{
    let (first, rest) = split(tokens)?;
    match first.kind {
        TokenKind::Sign(sign) => Some((comparison(sign)?, rest)),
        _ => None,
    }
}
