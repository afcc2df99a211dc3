// The patterns that the conditions of a ban search for.
ghost use Rattle.std.specs.Prelude.{◌≡◌, map, IfOk};
ghost use Rattle.ban_expr.specs.Searches.{sought};

use cache_law::{Condition, TextOperator};
use std::alloc::{AllocError, Global};
use units::{Sequence, Text};
use vcl_values::Pattern;

/// Of each condition the pattern that it searches for, and None of one that doesn't search.
pub(crate) fn patterns_of(
    alloc: Global,
    conditions: &[Condition],
) -> Result<Sequence<Option<Pattern>>, AllocError>
    ensures { IfOk result (λ patterns. patterns ≡ map sought conditions.now) }
{
    let mut patterns = Sequence::new(alloc);
    for condition in conditions {
        patterns.push(pattern_in(alloc, condition)?)?;
    }
    Ok(patterns)
}

fn pattern_in(alloc: Global, condition: &Condition) -> Result<Option<Pattern>, AllocError>
    ensures { IfOk result (λ pattern. pattern ≡ sought condition.now) }
{
    match condition {
        Condition::OnText {
            operator: TextOperator::Matches | TextOperator::MatchesNot,
            argument,
            ..
        } => Ok(Some(built(alloc, argument)?)),
        Condition::OnText { .. } => Ok(None),
        Condition::OnTime { .. } => Ok(None),
    }
}

// A pattern that was read before is refused at a later building for want of memory alone.
fn built(alloc: Global, argument: &Text) -> Result<Pattern, AllocError>
    ensures { IfOk result (λ pattern. pattern ≡ argument.now) }
{
    match Pattern::of(alloc, argument) {
        Ok(pattern) => Ok(pattern),
        Err(_) => Err(AllocError),
    }
}
