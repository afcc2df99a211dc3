// Stored functions and tables of them.
ghost use Rattle.std.specs.Prelude.{◌≡◌, ◌∷◌, [], map, IfOk};
ghost use Rattle.vcl_values.specs.Values.{kind_of};
ghost use Rattle.vmod_host.specs.Meanings.{IsMeaning};

use crate::samples::text_of;
use crate::values::shown;
use std::alloc::{AllocError, Global};
use units::Text;
use vcl_values::{Kind, Value};
use vmod_host::{
    STRLEN, Signature, TOLOWER, TOUPPER, TableError, Vmod, VmodTable, integer, strlen, tolower,
    toupper,
};

/// A quoted text, or an absent one.
pub fn some_text(alloc: Global, row: &str) -> Result<Option<Text>, AllocError> {
    if row == "absent" {
        return Ok(None);
    }
    Ok(Some(text_of(alloc, row)?))
}

/// What a function of one text answers.
pub fn answer_shown(alloc: Global, word: &str, row: &str) -> Result<String, AllocError> {
    let arguments = [Value::String(some_text(alloc, row)?)];
    let answer = match word {
        "tolower" => tolower(alloc, &arguments),
        "toupper" => toupper(alloc, &arguments),
        _ => strlen(alloc, &arguments),
    };
    shown(alloc, &answer?)
}

/// What `std.integer` answers.
pub fn integer_shown(alloc: Global, row: &str) -> Result<String, AllocError> {
    let (text, fallback) = row.split_once('|').unwrap_or((row, ""));
    let text = Value::String(some_text(alloc, text)?);
    let fallback = Value::Int(fallback.parse::<i64>().unwrap_or(1));
    let answer = integer(alloc, &[text, fallback])?;
    shown(alloc, &answer)
}

/// The tag and the name of a function's copy, and what the function and the copy answer.
pub fn copies_shown(alloc: Global, row: &str) -> Result<String, AllocError> {
    let text = some_text(alloc, row)?;
    let signature = Signature::of(alloc, b"std", b"toupper", &[Kind::String], Kind::String)?;
    let vmod = Vmod {
        tag: TOUPPER,
        signature,
        call: capital_of,
    };
    copy_shown(alloc, &vmod, &[Value::String(text)])
}

fn copy_shown(alloc: Global, vmod: &Vmod, arguments: &[Value]) -> Result<String, AllocError>
    requires { map kind_of arguments.now ≡ vmod.now.signature.takes }
{
    let copy = vmod.copy(alloc)?;
    let mut out = format!(in alloc; "{} {:?}", copy.tag, copy.signature.name)?;
    push_answer(alloc, &mut out, vmod, arguments)?;
    push_answer(alloc, &mut out, &copy, arguments)?;
    Ok(out)
}

fn push_answer(
    alloc: Global,
    out: &mut String,
    vmod: &Vmod,
    arguments: &[Value],
) -> Result<(), AllocError>
    requires { map kind_of arguments.now ≡ vmod.now.signature.takes }
{
    let answer = vmod.answer(alloc, arguments)?;
    push_text(alloc, out, &answer)
}

fn push_text(alloc: Global, out: &mut String, value: &Value) -> Result<(), AllocError> {
    let text = value.text(alloc)?;
    write!(out, " {text:?}")
}

/// What comes of a list in which the first and the last function have one tag.
pub fn table_shown(alloc: Global) -> Result<String, AllocError> {
    let text = [Kind::String];
    let first = Signature::of(alloc, b"std", b"strlen", &text, Kind::Int)?;
    let second = Signature::of(alloc, b"std", b"tolower", &text, Kind::String)?;
    let last = Signature::of(alloc, b"std", b"length", &text, Kind::Int)?;
    let list = [
        Vmod {
            tag: STRLEN,
            signature: first,
            call: length_of,
        },
        Vmod {
            tag: TOLOWER,
            signature: second,
            call: small_of,
        },
        Vmod {
            tag: STRLEN,
            signature: last,
            call: length_of,
        },
    ];
    match VmodTable::of(alloc, Vec::from_array(alloc, list)?) {
        Err(TableError::Twice) => format!(in alloc; "refused"),
        Err(TableError::NoMemory) => Err(AllocError),
        Ok(_) => format!(in alloc; "a table"),
    }
}

fn capital_of(_tag: u32, alloc: Global, arguments: &[Value]) -> Result<Value, AllocError>
    requires { map kind_of arguments.now ≡ Kind.String ∷ [] }
    ensures { IfOk result (IsMeaning TOUPPER Kind.String arguments.now) }
{
    toupper(alloc, arguments)
}

fn small_of(_tag: u32, alloc: Global, arguments: &[Value]) -> Result<Value, AllocError>
    requires { map kind_of arguments.now ≡ Kind.String ∷ [] }
    ensures { IfOk result (IsMeaning TOLOWER Kind.String arguments.now) }
{
    tolower(alloc, arguments)
}

fn length_of(_tag: u32, alloc: Global, arguments: &[Value]) -> Result<Value, AllocError>
    requires { map kind_of arguments.now ≡ Kind.String ∷ [] }
    ensures { IfOk result (IsMeaning STRLEN Kind.Int arguments.now) }
{
    strlen(alloc, arguments)
}
