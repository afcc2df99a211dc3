// What the second word of a condition says.
ghost use Rattle.std.specs.Prelude.{◌≡◌};
ghost use Rattle.ban_expr.specs.Operators.{text_operator as operator_named, comparison_of as comparison_named, is_search};

use cache_law::TextOperator;
use vcl_values::Comparison;

/// The operator of texts that the word is.
#[tactic(auto, unfolding(crate::specs::Operators::text_operator))]
pub fn text_operator(word: &[u8]) -> Option<TextOperator>
    ensures { result ≡ operator_named word.now }
{
    match word {
        b"==" => Some(TextOperator::Equal),
        b"!=" => Some(TextOperator::NotEqual),
        b"~" => Some(TextOperator::Matches),
        b"!~" => Some(TextOperator::MatchesNot),
        _ => None,
    }
}

/// Whether the operator searches for its argument as a pattern.
pub fn searches(operator: TextOperator) -> bool
    ensures { result ≡ is_search operator }
{
    matches!(operator, TextOperator::Matches | TextOperator::MatchesNot)
}

/// The comparison of times that the word is.
#[tactic(auto, unfolding(crate::specs::Operators::comparison_of))]
pub fn comparison_of(word: &[u8]) -> Option<Comparison>
    ensures { result ≡ comparison_named word.now }
{
    match word {
        b"==" => Some(Comparison::Equal),
        b"!=" => Some(Comparison::NotEqual),
        b"<" => Some(Comparison::Less),
        b"<=" => Some(Comparison::LessOrEqual),
        b">" => Some(Comparison::Greater),
        b">=" => Some(Comparison::GreaterOrEqual),
        _ => None,
    }
}
