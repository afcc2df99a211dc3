// Functions that change a jar: each answers the text of the new one.
ghost use Rattle.std.specs.Prelude.{◌≡◌, ◌∷◌, [], List, ℕ, map, IfOk};
ghost use Rattle.std.specs.Str.{byte, bytes_eq};
ghost use Rattle.indexmap.specs.IndexSet.{contains};
ghost use Rattle.vcl_values.specs.Values.{kind_of, text_of};
ghost use Rattle.vmod_host.specs.Jar.{is_among, only, parts_at, with_cookie, without, without_name};
ghost use Rattle.vmod_host.specs.JarText.{jar_of};
ghost use Rattle.vmod_host.specs.JarMeanings.{jar_value};
ghost use Rattle.vmod_host.specs.Meanings.{IsMeaning};

use crate::Jar;
use crate::asking::jar_of;
use indexmap::IndexSet;
use std::alloc::{AllocError, Global};
use units::{Text, trim_blanks};
use vcl_values::{Kind, Value};
use vmod_host::{CLEAN, DELETE, FILTER, KEEP, PARSE, SET};

/// `cookie.parse(STRING)`: the jar of a Cookie field.
pub fn parse(alloc: Global, arguments: &[Value]) -> Result<Value, AllocError>
    requires { map kind_of arguments.now ≡ Kind.String ∷ Kind.String ∷ [] }
    ensures { IfOk result (IsMeaning PARSE Kind.String arguments.now) }
{
    let [_, text] = arguments else { unreachable!() };
    let jar = Jar::parse(alloc, text.text(alloc)?.bytes())?;
    jar_value(alloc, &jar)
}

/// `cookie.set(STRING, STRING)`: the jar with this value for this name.
pub fn set(alloc: Global, arguments: &[Value]) -> Result<Value, AllocError>
    requires { map kind_of arguments.now ≡ Kind.String ∷ Kind.String ∷ Kind.String ∷ [] }
    ensures { IfOk result (IsMeaning SET Kind.String arguments.now) }
{
    let [jar, name, value] = arguments else {
        unreachable!()
    };
    with_cookie(alloc, jar, name, value)
}

/// `cookie.delete(STRING)`: the jar without this name.
pub fn delete(alloc: Global, arguments: &[Value]) -> Result<Value, AllocError>
    requires { map kind_of arguments.now ≡ Kind.String ∷ Kind.String ∷ [] }
    ensures { IfOk result (IsMeaning DELETE Kind.String arguments.now) }
{
    let [jar, name] = arguments else {
        unreachable!()
    };
    let jar = jar_of(alloc, jar)?;
    without_name(alloc, jar, name.text(alloc)?)
}

/// `cookie.keep(STRING)`: the jar with the names of a list alone.
pub fn keep(alloc: Global, arguments: &[Value]) -> Result<Value, AllocError>
    requires { map kind_of arguments.now ≡ Kind.String ∷ Kind.String ∷ [] }
    ensures { IfOk result (IsMeaning KEEP Kind.String arguments.now) }
{
    let [jar, list] = arguments else {
        unreachable!()
    };
    let jar = jar_of(alloc, jar)?;
    only(alloc, jar, list.text(alloc)?)
}

/// `cookie.filter(STRING)`: the jar without the names of a list.
pub fn filter(alloc: Global, arguments: &[Value]) -> Result<Value, AllocError>
    requires { map kind_of arguments.now ≡ Kind.String ∷ Kind.String ∷ [] }
    ensures { IfOk result (IsMeaning FILTER Kind.String arguments.now) }
{
    let [jar, list] = arguments else {
        unreachable!()
    };
    let jar = jar_of(alloc, jar)?;
    without(alloc, jar, list.text(alloc)?)
}

/// `cookie.clean()`: the empty jar.
pub fn clean(alloc: Global, arguments: &[Value]) -> Result<Value, AllocError>
    requires { map kind_of arguments.now ≡ Kind.String ∷ [] }
    ensures { IfOk result (IsMeaning CLEAN Kind.String arguments.now) }
{
    jar_value(alloc, &Jar::new(alloc))
}

fn with_cookie(alloc: Global, jar: &Value, name: &Value, value: &Value) -> Result<Value, AllocError>
    requires { kind_of jar.now ≡ Kind.String }
    ensures { IfOk result (λ answer. answer ≡ jar_value (with_cookie (jar_of (text_of jar.now)) (text_of name.now) (text_of value.now))) }
{
    let mut jar = jar_of(alloc, jar)?;
    let name = name.text(alloc)?;
    jar.set(name, value.text(alloc)?)?;
    jar_value(alloc, &jar)
}

fn without_name(alloc: Global, mut jar: Jar, name: Text) -> Result<Value, AllocError>
    ensures { IfOk result (λ answer. answer ≡ jar_value (without_name jar name)) }
{
    jar.delete(name.bytes());
    jar_value(alloc, &jar)
}

fn only(alloc: Global, mut jar: Jar, list: Text) -> Result<Value, AllocError>
    ensures { IfOk result (λ answer. answer ≡ jar_value (only jar (parts_at (byte ",") list))) }
{
    let names = names_of(alloc, list.bytes())?;
    jar.keep(&names);
    jar_value(alloc, &jar)
}

fn without(alloc: Global, mut jar: Jar, list: Text) -> Result<Value, AllocError>
    ensures { IfOk result (λ answer. answer ≡ jar_value (without jar (parts_at (byte ",") list))) }
{
    let names = names_of(alloc, list.bytes())?;
    jar.remove(&names);
    jar_value(alloc, &jar)
}

fn jar_value(alloc: Global, jar: &Jar) -> Result<Value, AllocError>
    ensures { IfOk result (λ value. value ≡ jar_value jar.now) }
{
    Ok(Value::String(Some(jar.text(alloc)?)))
}

// The names of a list, which commas split.
fn names_of(alloc: Global, list: &[u8]) -> Result<IndexSet<Text>, AllocError>
    ensures { IfOk result (λ names. (name : List ℕ) → contains bytes_eq names name ≡ is_among (parts_at (byte ",") list.now) name) }
{
    let mut names = IndexSet::new(alloc);
    for name in list.split(|sign| *sign == b',') {
        names.insert(Text::of(alloc, trim_blanks(name))?)?;
    }
    Ok(names)
}
