// Stored functions by their tags, and another body of one.
ghost use Rattle.std.specs.Prelude.{◌≡◌, ◌∷◌, [], map, IfOk};
ghost use Rattle.vcl_values.specs.Values.{kind_of};
ghost use Rattle.vmod_host.specs.Meanings.{IsMeaning};

use std::alloc::{AllocError, Global};
use vcl_values::{Kind, Value};
use vmod_host::{INTEGER, STRLEN, TOLOWER, TOUPPER, integer, strlen, tolower, toupper};

/// What `std.strlen` means, by a copy of the text.
pub fn length_of_copy(_tag: u32, alloc: Global, arguments: &[Value]) -> Result<Value, AllocError>
    requires { map kind_of arguments.now ≡ Kind.String ∷ [] }
    ensures { IfOk result (IsMeaning STRLEN Kind.Int arguments.now) }
{
    let [text] = arguments else { unreachable!() };
    Ok(Value::Int(text.text(alloc)?.bytes().len() as i64))
}

pub fn small_of(_tag: u32, alloc: Global, arguments: &[Value]) -> Result<Value, AllocError>
    requires { map kind_of arguments.now ≡ Kind.String ∷ [] }
    ensures { IfOk result (IsMeaning TOLOWER Kind.String arguments.now) }
{
    tolower(alloc, arguments)
}

pub fn capital_of(_tag: u32, alloc: Global, arguments: &[Value]) -> Result<Value, AllocError>
    requires { map kind_of arguments.now ≡ Kind.String ∷ [] }
    ensures { IfOk result (IsMeaning TOUPPER Kind.String arguments.now) }
{
    toupper(alloc, arguments)
}

pub fn number_of(_tag: u32, alloc: Global, arguments: &[Value]) -> Result<Value, AllocError>
    requires { map kind_of arguments.now ≡ Kind.String ∷ Kind.Int ∷ [] }
    ensures { IfOk result (IsMeaning INTEGER Kind.Int arguments.now) }
{
    integer(alloc, arguments)
}

pub fn length_of(_tag: u32, alloc: Global, arguments: &[Value]) -> Result<Value, AllocError>
    requires { map kind_of arguments.now ≡ Kind.String ∷ [] }
    ensures { IfOk result (IsMeaning STRLEN Kind.Int arguments.now) }
{
    strlen(alloc, arguments)
}
