// Which bans are equal.
ghost use Rattle.std.specs.Prelude.{◌≡◌};
ghost use Rattle.std.specs.Cmp.Lexicographic.{pointwise};
ghost use Rattle.cache_law.specs.Bans.{is_equal as are_equal, is_on_time as looks_at_time, lasting, same_condition as conditions_same, same_field as fields_same, same_operator as operators_same};

use cache_law::{Ban, Condition, TextField, TextOperator};

fn is_on_time(condition: &Condition) -> bool
    ensures { result ≡ looks_at_time condition.now }
{
    match condition {
        Condition::OnText { .. } => false,
        Condition::OnTime { .. } => true,
    }
}

/// Whether a condition of the ban looks at a time. Such a ban has no equal.
#[tactic(auto, unfolding(cache_law::specs::Bans::lasting))]
pub(crate) fn is_lasting(ban: &Ban) -> bool
    ensures { result ≡ lasting ban.now }
{
    ban.conditions.as_slice().iter().any(is_on_time)
}

fn is_same_field(field: &TextField, other: &TextField) -> bool
    ensures { result ≡ fields_same field.now other.now }
{
    match (field, other) {
        (TextField::RequestUrl, TextField::RequestUrl) => true,
        (TextField::RequestHeader(name), TextField::RequestHeader(wanted)) => {
            name.bytes() == wanted.bytes()
        }
        (TextField::ObjectStatus, TextField::ObjectStatus) => true,
        (TextField::ObjectHeader(name), TextField::ObjectHeader(wanted)) => {
            name.bytes() == wanted.bytes()
        }
        _ => false,
    }
}

fn is_same_operator(operator: TextOperator, other: TextOperator) -> bool
    ensures { result ≡ operators_same operator other }
{
    match (operator, other) {
        (TextOperator::Equal, TextOperator::Equal) => true,
        (TextOperator::NotEqual, TextOperator::NotEqual) => true,
        (TextOperator::Matches, TextOperator::Matches) => true,
        (TextOperator::MatchesNot, TextOperator::MatchesNot) => true,
        _ => false,
    }
}

fn is_same_condition(condition: &Condition, other: &Condition) -> bool
    ensures { result ≡ conditions_same condition.now other.now }
{
    match (condition, other) {
        (
            Condition::OnText {
                field,
                operator,
                argument,
            },
            Condition::OnText {
                field: other_field,
                operator: other_operator,
                argument: other_argument,
            },
        ) => {
            is_same_field(field, other_field)
                && is_same_operator(*operator, *other_operator)
                && argument.bytes() == other_argument.bytes()
        }
        _ => false,
    }
}

fn are_same_conditions(conditions: &[Condition], others: &[Condition]) -> bool
    ensures { result ≡ pointwise conditions_same conditions.now others.now }
{
    match conditions {
        [] => others.is_empty(),
        [condition, rest @ ..] => match others {
            [] => false,
            [other, behind @ ..] => {
                is_same_condition(condition, other) && are_same_conditions(rest, behind)
            }
        },
    }
}

/// Whether the bans have the same conditions in the same order, and none on a time.
#[tactic(auto, unfolding(cache_law::specs::Bans::is_equal))]
pub(crate) fn is_equal(ban: &Ban, other: &Ban) -> bool
    ensures { result ≡ are_equal ban.now other.now }
{
    are_same_conditions(ban.conditions.as_slice(), other.conditions.as_slice())
}
