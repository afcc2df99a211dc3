// Functions of texts.
ghost use Rattle.std.specs.Prelude.{◌≡◌, ◌∷◌, [], map, pos, length, IfOk};
ghost use Rattle.std.specs.Char.{to_ascii_lowercase, to_ascii_uppercase};
ghost use Rattle.vcl_values.specs.Values.{kind_of, text_of};
ghost use Rattle.vmod_host.specs.Meanings.{IsMeaning};

use crate::{STRLEN, TOLOWER, TOUPPER};
use std::alloc::{AllocError, Global};
use units::Text;
use vcl_values::{Kind, Value};

/// `std.tolower(STRING)`: the text with its ASCII capital letters made small.
pub fn tolower(alloc: Global, arguments: &[Value]) -> Result<Value, AllocError>
    requires { map kind_of arguments.now ≡ Kind.String ∷ [] }
    ensures { IfOk result (IsMeaning TOLOWER Kind.String arguments.now) }
{
    let [text] = arguments else { unreachable!() };
    let small = bytes_of(text).to_ascii_lowercase(alloc)?;
    text_value(alloc, small.as_slice())
}

/// `std.toupper(STRING)`: the text with its ASCII small letters made capital.
pub fn toupper(alloc: Global, arguments: &[Value]) -> Result<Value, AllocError>
    requires { map kind_of arguments.now ≡ Kind.String ∷ [] }
    ensures { IfOk result (IsMeaning TOUPPER Kind.String arguments.now) }
{
    let [text] = arguments else { unreachable!() };
    let capital = bytes_of(text).to_ascii_uppercase(alloc)?;
    text_value(alloc, capital.as_slice())
}

/// `std.strlen(STRING)`: how many bytes the text has.
pub fn strlen(alloc: Global, arguments: &[Value]) -> Result<Value, AllocError>
    requires { map kind_of arguments.now ≡ Kind.String ∷ [] }
    ensures { IfOk result (IsMeaning STRLEN Kind.Int arguments.now) }
{
    let [text] = arguments else { unreachable!() };
    Ok(Value::Int(bytes_of(text).len() as i64))
}

/// The bytes of a text; an absent one has none.
pub(crate) fn bytes_of(text: &Value) -> &[u8]
    requires { kind_of text.now ≡ Kind.String }
    ensures { result.now ≡ text_of text.now }
{
    match text {
        Value::String(Some(text)) => text.bytes(),
        Value::String(None) => b"",
        _ => unreachable!(),
    }
}

fn text_value(alloc: Global, bytes: &[u8]) -> Result<Value, AllocError>
    ensures { IfOk result (λ value. value ≡ Value.String (Some bytes.now)) }
{
    Ok(Value::String(Some(Text::of(alloc, bytes)?)))
}
