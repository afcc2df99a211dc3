// Reading words as a ban.
ghost use Rattle.std.specs.Prelude.{◌≡◌, ◌↔◌, ◌<◌, ◌∷◌, List, length, IsTrue, IfOk, IfErr, MatchOption, MatchResult};
ghost use Rattle.cache_law.specs.declared.ban.Condition.{Condition as SaidCondition};
ghost use Rattle.ban_expr.specs.Reading.{Clause, IsMadeOf, AreClauses, joined, SayAll, IsChecked, Reads, IsRefusal};

use crate::BanError;
use crate::clauses::{check_clause, condition_of};
use cache_law::{Ban, Condition};
use cli_words::Words;
use std::alloc::Global;
use units::{Copied, Sequence, Text};

/// A ban has at most so many conditions.
pub const MAX_CONDITIONS: usize = 16;

/// The ban that the words say: `FIELD OPERATOR ARGUMENT`, up to 16 times with the word `&&` between two. The fields
/// `req.url`, `req.http.NAME`, `obj.status` and `obj.http.NAME` take `==`, `!=`, `~` and `!~` with a text, which is a
/// pattern for the last two; `obj.ttl`, `obj.age`, `obj.grace` and `obj.keep` take `==`, `!=`, `<`, `<=`, `>` and `>=` with
/// a duration. What is wrong is told of the first wrong condition, and `Shape` before all else.
pub fn read(alloc: Global, words: &Words) -> Result<Ban, BanError>
    ensures words { IfOk result (λ ban. ban.words ≡ words.now) }
    ensures conditions { IfOk result (λ ban. Reads words.now ban.conditions) }
    ensures refused { IfErr result (λ error. IsRefusal words.now error) }
{
    if !is_shaped(words.as_slice()) {
        return Err(BanError::Shape);
    }
    check_all(alloc, words.as_slice())?;
    let conditions = conditions_of(alloc, words.as_slice())?;
    Ok(Ban {
        words: words.copied(alloc)?,
        conditions: Sequence::from_vec(conditions),
    })
}

// Whether the words are clauses, and not too many.
fn is_shaped(words: &[Text]) -> bool
    ensures { IsTrue result ↔ ((clauses : List Clause) × IsMadeOf words.now clauses) }
{
    words.len() < 4 * MAX_CONDITIONS && are_clauses(words)
}

// The first three words, and those behind them.
#[derive(Clone, Copy)]
struct Front<'a> {
    field: &'a Text,
    operator: &'a Text,
    argument: &'a Text,
    behind: &'a [Text],
}

fn front_of(words: &[Text]) -> Option<Front<'_>>
    ensures { MatchOption result
        (length words.now < 3)
        (λ front. words.now ≡ front.field.now ∷ front.operator.now ∷ front.argument.now ∷ front.behind.now) }
{
    let (field, behind) = words.split_first()?;
    let (operator, behind) = behind.split_first()?;
    let (argument, behind) = behind.split_first()?;
    Some(Front {
        field,
        operator,
        argument,
        behind,
    })
}

// Whether the words are three each with `&&` between two.
fn are_clauses(words: &[Text]) -> bool
    ensures { IsTrue result ↔ AreClauses words.now }
{
    let Some(front) = front_of(words) else {
        return false;
    };
    match front.behind.split_first() {
        None => true,
        Some((joint, more)) => joint.bytes() == b"&&".as_slice() && are_clauses(more),
    }
}

// What is wrong with the first clause that says no condition.
fn check_all(alloc: Global, words: &[Text]) -> Result<(), BanError>
    ensures { (clauses : List Clause) → 0 < length clauses → words.now ≡ joined clauses → IsChecked clauses result }
{
    let Some(front) = front_of(words) else {
        return Err(BanError::Shape);
    };
    check_clause(alloc, front.field, front.operator, front.argument)?;
    match front.behind.split_first() {
        None => Ok(()),
        Some((_, more)) => check_all(alloc, more),
    }
}

// The conditions that the clauses say.
fn conditions_of(alloc: Global, words: &[Text]) -> Result<Vec<Condition>, BanError>
    ensures { (clauses : List Clause) → 0 < length clauses → words.now ≡ joined clauses
        → (conditions : List SaidCondition) → SayAll clauses conditions
        → MatchResult result (λ built. built.items ≡ conditions) (λ error. error ≡ BanError.NoMemory) }
{
    let Some(front) = front_of(words) else {
        return Err(BanError::Shape);
    };
    let condition = condition_of(alloc, front.field, front.operator, front.argument)?;
    match front.behind.split_first() {
        None => with_first(condition, Vec::new(alloc)),
        Some((_, more)) => with_first(condition, conditions_of(alloc, more)?),
    }
}

// The conditions with one before them.
fn with_first(
    condition: Condition,
    mut conditions: Vec<Condition>,
) -> Result<Vec<Condition>, BanError>
    ensures { MatchResult result (λ built. built.items ≡ condition ∷ conditions.items) (λ error. error ≡ BanError.NoMemory) }
{
    conditions.insert(0, condition)?;
    Ok(conditions)
}
