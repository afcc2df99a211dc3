// The three words of one condition.
ghost use Rattle.std.specs.Prelude.{◌≡◌, MatchResult};
ghost use Rattle.cache_law.specs.declared.ban.Condition.{Condition as SaidCondition};
ghost use Rattle.ban_expr.specs.Operators.{IsPattern};
ghost use Rattle.ban_expr.specs.Reading.{Says, IsWrong, clause};
ghost use Rattle.ban_expr.specs.Plans.{IsTried};

use crate::BanError;
use crate::operators::searches;
use crate::plans::{Plan, plan_of};
use crate::subjects::text_field;
use cache_law::Condition;
use std::alloc::Global;
use units::{Text, one_duration};
use vcl_values::{Pattern, PatternError};

/// Whether the words are a condition. Memory is taken for a pattern alone.
pub fn check_clause(
    alloc: Global,
    field: &Text,
    operator: &Text,
    argument: &Text,
) -> Result<(), BanError>
    ensures { MatchResult result
        (λ _. (condition : SaidCondition) × Says (clause field.now operator.now argument.now) condition)
        (λ error. IsWrong (clause field.now operator.now argument.now) error) }
{
    match plan_of(field.bytes(), operator.bytes(), argument.bytes())? {
        Plan::OnText { operator, .. } if searches(operator) => try_pattern(alloc, argument),
        _ => Ok(()),
    }
}

fn try_pattern(alloc: Global, text: &Text) -> Result<(), BanError>
    ensures { MatchResult result (λ _. IsPattern text.now) (λ error. IsTried text.now error) }
{
    match Pattern::of(alloc, text) {
        Ok(_) => Ok(()),
        Err(PatternError::Refused) => Err(BanError::Pattern),
        Err(PatternError::TooLong) => Err(BanError::Pattern),
        Err(PatternError::NoMemory) => Err(BanError::NoMemory),
    }
}

/// The condition that the words say, where they say one.
pub fn condition_of(
    alloc: Global,
    field: &Text,
    operator: &Text,
    argument: &Text,
) -> Result<Condition, BanError>
    ensures { (said : SaidCondition) → Says (clause field.now operator.now argument.now) said
        → MatchResult result (λ condition. condition ≡ said) (λ error. error ≡ BanError.NoMemory) }
{
    one_duration(argument.bytes());
    match plan_of(field.bytes(), operator.bytes(), argument.bytes())? {
        Plan::OnText { subject, operator } => Ok(Condition::OnText {
            field: text_field(alloc, subject, field.bytes())?,
            operator,
            argument: argument.copy()?,
        }),
        Plan::OnTime {
            field,
            comparison,
            milliseconds,
        } => Ok(Condition::OnTime {
            field,
            comparison,
            milliseconds,
        }),
    }
}
