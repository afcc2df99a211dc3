// What statements set.
ghost use Rattle.std.specs.Prelude.{◌≡◌, IfOk, IsSome};
ghost use Rattle.vcl_context.specs.Kinds.{kind_of_variable};
ghost use Rattle.vcl_context.specs.Outcomes.{Sets};
ghost use Rattle.vcl_eval.specs.Statements.{set_fitted, set_to, field_to, appended, append_to, append_field, key_given, body_given, SetsDue};

use crate::kinds::kind_of_variable;
use std::alloc::{AllocError, Global};
use units::Text;
use vcl_context::{Context, Message, Setting, Variable};
use vcl_operands::{fitted, short_text};
use vcl_values::{Kind, Value, ValueError, sum};

/// Sets a variable to a value, of which the text is taken where the variable is one.
pub fn set_to(
    alloc: Global,
    context: &mut Context,
    variable: Variable,
    value: &Value,
) -> Result<Setting, AllocError>
    requires { IsSome (set_to variable value.now context.old) }
    ensures { SetsDue result context.old context.new (set_to variable value.now context.old) }
{
    match fitted(alloc, kind_of_variable(variable), value)? {
        Some(value) => set_fitted(alloc, context, variable, &value),
        None => Ok(Setting::Refused),
    }
}

fn set_fitted(
    alloc: Global,
    context: &mut Context,
    variable: Variable,
    value: &Value,
) -> Result<Setting, AllocError>
    requires { IsSome (set_fitted variable context.old value.now) }
    ensures { SetsDue result context.old context.new (set_fitted variable context.old value.now) }
{
    context.set(alloc, variable, value)
}

/// Sets a field to a value's text.
pub fn field_to(
    alloc: Global,
    context: &mut Context,
    message: Message,
    name: &Text,
    value: &Value,
) -> Result<Setting, AllocError>
    ensures { SetsDue result context.old context.new (field_to message name.now value.now context.old) }
{
    match fitted(alloc, Kind::String, value)? {
        Some(value) => context.set_field(alloc, message, name, &value),
        None => Ok(Setting::Refused),
    }
}

// Two values as texts, one behind the other.
fn appended(alloc: Global, old: &Value, value: &Value) -> Result<Option<Value>, AllocError>
    ensures { IfOk result (λ made. made ≡ appended old.now value.now) }
{
    let old = Value::String(Some(old.text(alloc)?));
    match sum(alloc, &old, value) {
        Ok(value) => Ok(Some(value)),
        Err(ValueError::NoMemory) => Err(AllocError),
        Err(_) => Ok(None),
    }
}

/// Puts a value's text behind a variable's.
pub fn append_to(
    alloc: Global,
    context: &mut Context,
    variable: Variable,
    value: &Value,
) -> Result<Setting, AllocError>
    requires { IsSome (append_to variable value.now context.old) }
    ensures { SetsDue result context.old context.new (append_to variable value.now context.old) }
{
    let old = context.read(alloc, None, variable)?;
    match appended(alloc, &old, value)? {
        Some(value) => set_to(alloc, context, variable, &value),
        None => Ok(Setting::Refused),
    }
}

/// Puts a value's text behind a field's.
pub fn append_field(
    alloc: Global,
    context: &mut Context,
    message: Message,
    name: &Text,
    value: &Value,
) -> Result<Setting, AllocError>
    ensures { SetsDue result context.old context.new (append_field message name.now value.now context.old) }
{
    let old = context.read_field(message, name.bytes())?;
    match appended(alloc, &old, value)? {
        Some(value) => field_to(alloc, context, message, name, &value),
        None => Ok(Setting::Refused),
    }
}

/// One more text of the key.
pub fn key_given(alloc: Global, context: &mut Context, value: &Value) -> Result<Setting, AllocError>
    ensures { Sets result context.old context.new (key_given value.now context.old) }
{
    match short_text(alloc, value)? {
        Some(text) => {
            if context.key.push(text).is_err() {
                return Err(AllocError);
            }
            Ok(Setting::Done)
        }
        None => Ok(Setting::Refused),
    }
}

/// Sets the body.
pub fn body_given(
    alloc: Global,
    context: &mut Context,
    value: &Value,
) -> Result<Setting, AllocError>
    ensures { Sets result context.old context.new (body_given value.now context.old) }
{
    match short_text(alloc, value)? {
        Some(text) => {
            context.body = Some(text);
            Ok(Setting::Done)
        }
        None => Ok(Setting::Refused),
    }
}
