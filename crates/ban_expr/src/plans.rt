// What a condition's three words say, as far as it can be told without memory.
ghost use Rattle.std.specs.Prelude.{◌≡◌, IfOk, IfErr, OnErr};
ghost use Rattle.cache_law.specs.declared.ban.Condition.{Condition as SaidCondition};
ghost use Rattle.ban_expr.specs.Reading.{Says, IsWrong, clause};
ghost use Rattle.ban_expr.specs.Plans.{IsPlanned};

use crate::BanError;
use crate::operators::{comparison_of, text_operator};
use crate::subjects::{Subject, TextSubject, subject_of};
use cache_law::{TextOperator, TimeField};
use units::read_millis;
use vcl_values::Comparison;

/// A condition without its texts.
#[derive(Clone, Copy, Debug)]
pub enum Plan {
    OnText {
        subject: TextSubject,
        operator: TextOperator,
    },
    OnTime {
        field: TimeField,
        comparison: Comparison,
        milliseconds: i64,
    },
}

/// What the words say but for whether the argument is a pattern, or what is wrong with them.
pub fn plan_of(field: &[u8], operator: &[u8], argument: &[u8]) -> Result<Plan, BanError>
    ensures planned { IfOk result (λ plan. IsPlanned (clause field.now operator.now argument.now) plan) }
    ensures wrong { IfErr result (λ error. IsWrong (clause field.now operator.now argument.now) error) }
    ensures none { OnErr result ((condition : SaidCondition) → Says (clause field.now operator.now argument.now) condition → ⊥) }
{
    match subject_of(field) {
        Some(Subject::OfText(subject)) => match text_operator(operator) {
            Some(operator) => Ok(Plan::OnText { subject, operator }),
            None => Err(BanError::Operator),
        },
        Some(Subject::OfTime(field)) => match comparison_of(operator) {
            Some(comparison) => match read_millis(argument) {
                Some(milliseconds) => Ok(Plan::OnTime {
                    field,
                    comparison,
                    milliseconds,
                }),
                None => Err(BanError::Argument),
            },
            None => Err(BanError::Operator),
        },
        None => Err(BanError::Field),
    }
}
