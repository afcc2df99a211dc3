// Functions of a jar of cookies, one after another.
ghost use Rattle.std.specs.Prelude.{◌≡◌, IfOk};
ghost use Rattle.vcl_values.specs.Values.{kind_of};

use crate::functions::some_text;
use crate::values::shown;
use std::alloc::{AllocError, Global};
use units::Text;
use vcl_values::{Kind, Value};
use vmod_cookie::{clean, delete, filter, get, get_string, isset, keep, parse, set};

/// What the functions between bars answer that ask the jar, which those that change it hand on; the first jar's text is empty.
/// `text` shows the jar's text, and `raw` sets it.
pub fn jar_shown(alloc: Global, row: &str) -> Result<String, AllocError> {
    let mut jar = Text::of(alloc, b"")?;
    let mut out = String::new(alloc);
    for step in row.split('|') {
        let (word, rest) = step.split_once(' ').unwrap_or((step, ""));
        let answer = answer_of(alloc, &jar, word, rest)?;
        if matches!(word, "get" | "isset" | "get_string" | "text") {
            push_shown(alloc, &mut out, &answer)?;
        } else {
            jar = answer.text(alloc)?;
        }
    }
    Ok(out)
}

fn push_shown(alloc: Global, out: &mut String, answer: &Value) -> Result<(), AllocError> {
    if !out.is_empty() {
        out.push(' ')?;
    }
    out.push_str(shown(alloc, answer)?.as_str())
}

fn answer_of(alloc: Global, jar: &Text, word: &str, rest: &str) -> Result<Value, AllocError> {
    match word {
        "clean" => clean(alloc, &[value_of(jar)?]),
        "get_string" => get_string(alloc, &[value_of(jar)?]),
        "text" => value_of(jar),
        "raw" => Ok(Value::String(some_text(alloc, rest)?)),
        "set" => set_answer(alloc, jar, rest),
        _ => text_answer(alloc, jar, word, rest),
    }
}

fn value_of(jar: &Text) -> Result<Value, AllocError>
    ensures { IfOk result (λ value. kind_of value ≡ Kind.String) }
{
    Ok(Value::String(Some(jar.copy()?)))
}

fn set_answer(alloc: Global, jar: &Text, rest: &str) -> Result<Value, AllocError> {
    let (name, value) = rest.split_once(' ').unwrap_or((rest, ""));
    let name = Value::String(some_text(alloc, name)?);
    let value = Value::String(some_text(alloc, value)?);
    set(alloc, &[value_of(jar)?, name, value])
}

fn text_answer(alloc: Global, jar: &Text, word: &str, rest: &str) -> Result<Value, AllocError> {
    let arguments = [value_of(jar)?, Value::String(some_text(alloc, rest)?)];
    match word {
        "parse" => parse(alloc, &arguments),
        "get" => get(alloc, &arguments),
        "isset" => isset(alloc, &arguments),
        "delete" => delete(alloc, &arguments),
        "keep" => keep(alloc, &arguments),
        _ => filter(alloc, &arguments),
    }
}
