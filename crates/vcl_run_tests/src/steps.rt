// Names of variables and fields, and steps on a context.
use crate::plain_context::context;
use std::alloc::{AllocError, Global};
use units::{Text, quoted};
use vcl_context::{
    Context, FetchResponseVariable, Message, RequestVariable, ResponseVariable, Setting, Variable,
    field_of, variable_of,
};
use vcl_values::Value;

/// The variable of a name, or the message and the name of a field.
pub fn name_shown(alloc: Global, word: &str, name: &str) -> Result<String, AllocError> {
    if word == "variable" {
        let variable = variable_of(name.as_bytes());
        return format!(in alloc; "{variable:?}");
    }
    let field = field_of(name.as_bytes());
    format!(in alloc; "{field:?}")
}

/// What is said of the steps, with semicolons behind. `NAME=VALUE` sets, and is told where it is refused; `?NAME` reads a text
/// and a condition, and `-NAME` unsets a field. Behind `#` is how many fields the client's request has.
pub fn steps_shown(alloc: Global, row: &str) -> Result<String, AllocError> {
    let mut context = context(alloc)?;
    take_steps(alloc, &mut context, row)
}

fn take_steps(alloc: Global, context: &mut Context, row: &str) -> Result<String, AllocError> {
    let mut out = String::new(alloc);
    for step in row.split(';') {
        take_step(alloc, context, step, &mut out)?;
    }
    Ok(out)
}

fn take_step(
    alloc: Global,
    context: &mut Context,
    step: &str,
    out: &mut String,
) -> Result<(), AllocError> {
    let (sign, name) = step.split_at_checked(1).unwrap_or(("", ""));
    match sign {
        "#" => {
            let count = context.fields(Message::Request).len();
            write!(out, "{count};")
        }
        "?" => {
            let value = read(alloc, context, name.as_bytes())?;
            let text = value.text(alloc)?;
            let truth = value.truth();
            write!(out, "{text:?} {truth:?};")
        }
        "-" => {
            if let Some((message, field)) = field_of(name.as_bytes()) {
                context.unset_field(message, field);
            }
            Ok(())
        }
        _ => match set(alloc, context, step)? {
            Setting::Refused => write!(out, "{step} is refused;"),
            Setting::Done => Ok(()),
        },
    }
}

fn read(alloc: Global, context: &Context, name: &[u8]) -> Result<Value, AllocError> {
    match field_of(name) {
        Some((message, field)) => context.read_field(message, field),
        None => match variable_of(name) {
            Some(variable) => context.read(alloc, None, variable),
            None => Ok(Value::Int(1)),
        },
    }
}

fn set(alloc: Global, context: &mut Context, step: &str) -> Result<Setting, AllocError> {
    let (name, value) = step.split_once('=').unwrap_or((step, ""));
    let value = value_of(alloc, value)?;
    if let Some((message, field)) = field_of(name.as_bytes()) {
        return context.set_field(alloc, message, &Text::of(alloc, field)?, &value);
    }
    match (name, value) {
        ("req.url", Value::String(text)) => {
            let variable = Variable::Request(RequestVariable::Url);
            context.set(alloc, variable, &Value::String(text))
        }
        ("beresp.ttl", Value::Int(milliseconds)) => {
            let variable = Variable::FetchResponse(FetchResponseVariable::Ttl);
            context.set(alloc, variable, &Value::Duration(milliseconds))
        }
        ("resp.status", Value::Int(number)) => {
            let variable = Variable::Response(ResponseVariable::Status);
            context.set(alloc, variable, &Value::Int(number))
        }
        ("resp.reason", Value::String(text)) => {
            let variable = Variable::Response(ResponseVariable::Reason);
            context.set(alloc, variable, &Value::String(text))
        }
        _ => Err(AllocError),
    }
}

// A quoted text, a number, or an absent text.
fn value_of(alloc: Global, word: &str) -> Result<Value, AllocError> {
    match quoted(alloc, word.as_bytes(), 0)? {
        Some((text, _)) => Ok(Value::String(Some(text))),
        None => match word.parse::<i64>() {
            Ok(number) => Ok(Value::Int(number)),
            Err(_) => Ok(Value::String(None)),
        },
    }
}
