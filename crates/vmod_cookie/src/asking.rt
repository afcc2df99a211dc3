// Functions that ask a jar.
ghost use Rattle.std.specs.Prelude.{◌≡◌, ◌∷◌, [], is_some, map, IfOk, Some};
ghost use Rattle.vcl_values.specs.Values.{kind_of, text_of};
ghost use Rattle.vmod_host.specs.Jar.{value_in};
ghost use Rattle.vmod_host.specs.JarText.{jar_of};
ghost use Rattle.vmod_host.specs.Meanings.{IsMeaning};

use crate::Jar;
use std::alloc::{AllocError, Global};
use vcl_values::{Kind, Value};
use vmod_host::{GET, GET_STRING, ISSET};

/// `cookie.get(STRING)`: the value of the cookie of this name, or the absent text.
pub fn get(alloc: Global, arguments: &[Value]) -> Result<Value, AllocError>
    requires { map kind_of arguments.now ≡ Kind.String ∷ Kind.String ∷ [] }
    ensures { IfOk result (IsMeaning GET Kind.String arguments.now) }
{
    let [jar, name] = arguments else {
        unreachable!()
    };
    let jar = jar_of(alloc, jar)?;
    match jar.get(&name.text(alloc)?) {
        Some(value) => Ok(Value::String(Some(value.copy()?))),
        None => Ok(Value::String(None)),
    }
}

/// `cookie.isset(STRING)`: whether a cookie of this name is there.
pub fn isset(alloc: Global, arguments: &[Value]) -> Result<Value, AllocError>
    requires { map kind_of arguments.now ≡ Kind.String ∷ Kind.String ∷ [] }
    ensures { IfOk result (IsMeaning ISSET Kind.Bool arguments.now) }
{
    let [jar, name] = arguments else {
        unreachable!()
    };
    Ok(Value::Bool(is_there(alloc, jar, name)?))
}

fn is_there(alloc: Global, jar: &Value, name: &Value) -> Result<bool, AllocError>
    requires { kind_of jar.now ≡ Kind.String }
    ensures { IfOk result (λ there. there ≡ is_some (value_in (jar_of (text_of jar.now)) (text_of name.now))) }
{
    let jar = jar_of(alloc, jar)?;
    let name = name.text(alloc)?;
    Ok(jar.has(&name))
}

/// `cookie.get_string()`: the jar as a Cookie field has it.
pub fn get_string(alloc: Global, arguments: &[Value]) -> Result<Value, AllocError>
    requires { map kind_of arguments.now ≡ Kind.String ∷ [] }
    ensures { IfOk result (IsMeaning GET_STRING Kind.String arguments.now) }
{
    let [jar] = arguments else { unreachable!() };
    let field = jar_of(alloc, jar)?.field(alloc)?;
    Ok(Value::String(Some(field)))
}

/// The jar that a STRING stands for.
pub(crate) fn jar_of(alloc: Global, text: &Value) -> Result<Jar, AllocError>
    requires { kind_of text.now ≡ Kind.String }
    ensures { IfOk result (λ jar. jar ≡ jar_of (text_of text.now)) }
{
    Jar::read(alloc, text.text(alloc)?.bytes())
}
