// Keys of bans, of which equal bans have the same.
ghost use Rattle.std.specs.Prelude.{◌≡◌, ◌++◌, IfOk, OnOk};
ghost use Rattle.cache_law.specs.Bans.{is_on_time, lasting};
ghost use Rattle.ban_list.specs.Keys.{condition_key, equal_key, field_word, marked_byte, name_in, operator_word, part_of};

use cache_law::{Ban, Condition, TextField, TextOperator};
use std::alloc::{AllocError, Global};
use units::Text;

/// The key of the ban. A ban on a time has none.
#[tactic(auto, unfolding(crate::specs::Keys::equal_key, cache_law::specs::Bans::lasting))]
pub(crate) fn key_of(alloc: Global, ban: &Ban) -> Result<Option<Text>, AllocError>
    ensures { IfOk result (λ key. key ≡ equal_key ban.now) }
{
    if is_lasting(ban) {
        return Ok(None);
    }
    let mut key = Vec::new(alloc);
    for condition in ban.conditions.as_slice() {
        push_condition(&mut key, condition)?;
    }
    Ok(Some(Text::from_vec(key)?))
}

#[tactic(auto, unfolding(cache_law::specs::Bans::lasting))]
fn is_lasting(ban: &Ban) -> bool
    ensures { result ≡ lasting ban.now }
{
    ban.conditions.as_slice().iter().any(is_on_time)
}

fn is_on_time(condition: &Condition) -> bool
    ensures { result ≡ is_on_time condition.now }
{
    match condition {
        Condition::OnText { .. } => false,
        Condition::OnTime { .. } => true,
    }
}

fn push_condition(key: &mut Vec<u8>, condition: &Condition) -> Result<(), AllocError>
    ensures { OnOk result (key.new.items ≡ key.old.items ++ condition_key condition.now) }
{
    match condition {
        Condition::OnText {
            field,
            operator,
            argument,
        } => {
            push_part(key, field_word(field))?;
            push_part(key, name_in(field))?;
            push_part(key, operator_word(*operator))?;
            push_part(key, argument.bytes())
        }
        Condition::OnTime { .. } => Ok(()),
    }
}

// Puts a part behind, so that its end shows itself.
fn push_part(key: &mut Vec<u8>, part: &[u8]) -> Result<(), AllocError>
    ensures { OnOk result (key.new.items ≡ key.old.items ++ part_of part.now) }
{
    for byte in part {
        push_byte(key, *byte)?;
    }
    key.push(0)?;
    Ok(())
}

fn push_byte(key: &mut Vec<u8>, byte: u8) -> Result<(), AllocError>
    ensures { OnOk result (key.new.items ≡ key.old.items ++ marked_byte byte) }
{
    key.push(1)?;
    key.push(byte)?;
    Ok(())
}

fn field_word(field: &TextField) -> &'static [u8]
    ensures { result.now ≡ field_word field.now }
{
    match field {
        TextField::RequestUrl => b"req.url",
        TextField::RequestHeader(_) => b"req.http",
        TextField::ObjectStatus => b"obj.status",
        TextField::ObjectHeader(_) => b"obj.http",
    }
}

fn name_in(field: &TextField) -> &[u8]
    ensures { result.now ≡ name_in field.now }
{
    match field {
        TextField::RequestHeader(name) | TextField::ObjectHeader(name) => name.bytes(),
        TextField::RequestUrl | TextField::ObjectStatus => b"",
    }
}

fn operator_word(operator: TextOperator) -> &'static [u8]
    ensures { result.now ≡ operator_word operator }
{
    match operator {
        TextOperator::Equal => b"==",
        TextOperator::NotEqual => b"!=",
        TextOperator::Matches => b"~",
        TextOperator::MatchesNot => b"!~",
    }
}
