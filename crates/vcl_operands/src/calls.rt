// Stored functions.
ghost use Rattle.std.specs.Prelude.{◌≡◌, IfOk, IsSome, Some};
ghost use Rattle.vcl_operands.specs.Values.{fitted, all_fitted, answered, applied};
ghost use Rattle.vmod_host.specs.Stored.{entry_of};

use crate::operators::short_text;
use std::alloc::{AllocError, Global};
use units::Sequence;
use vcl_values::{Kind, Value};
use vmod_host::{Vmod, VmodTable};

/// A stored function of these arguments, by its number, or none where a text passes its limit.
pub(crate) fn applied(
    alloc: Global,
    functions: &VmodTable,
    number: usize,
    arguments: &[Value],
) -> Result<Option<Value>, AllocError>
    requires { IsSome (applied functions.now.stored number arguments.now) }
    ensures { IfOk result (λ value. applied functions.now.stored number arguments.now ≡ Some value) }
{
    answered(alloc, functions.at(number), arguments)
}

fn answered(
    alloc: Global,
    function: &Vmod,
    arguments: &[Value],
) -> Result<Option<Value>, AllocError>
    requires { IsSome (answered (entry_of function.now.tag function.now.signature) arguments.now) }
    ensures { IfOk result (λ value. answered (entry_of function.now.tag function.now.signature) arguments.now ≡ Some value) }
{
    match all_fitted(alloc, function.signature.takes.as_slice(), arguments)? {
        Some(fits) => Ok(Some(function.answer(alloc, fits.as_slice())?)),
        None => Ok(None),
    }
}

// Each argument where a value of its type is wanted.
fn all_fitted(
    alloc: Global,
    kinds: &[Kind],
    arguments: &[Value],
) -> Result<Option<Sequence<Value>>, AllocError>
    requires { IsSome (all_fitted kinds.now arguments.now) }
    ensures { IfOk result (λ made. all_fitted kinds.now arguments.now ≡ Some made) }
{
    let mut fits = Sequence::new(alloc);
    let mut wanted = kinds;
    let mut given = arguments;
    'arguments: while let Some((value, others)) = given.split_first() {
        let Some((kind, more)) = wanted.split_first() else {
            unreachable!();
        };
        let Some(made) = fitted(alloc, *kind, value)? else {
            return Ok(None);
        };
        fits.push(made)?;
        given = others;
        wanted = more;
    }
    Ok(Some(fits))
}

/// A value where one of this type is wanted: of any type where a text is, whose text stands for it. None where that passes its
/// limit.
pub fn fitted(alloc: Global, wanted: Kind, value: &Value) -> Result<Option<Value>, AllocError>
    requires { IsSome (fitted wanted value.now) }
    ensures { IfOk result (λ made. fitted wanted value.now ≡ Some made) }
{
    match (wanted, value) {
        (Kind::String, Value::String(_)) => Ok(Some(value.copy()?)),
        (Kind::String, _) => match short_text(alloc, value)? {
            Some(text) => Ok(Some(Value::String(Some(text)))),
            None => Ok(None),
        },
        _ => Ok(Some(value.copy()?)),
    }
}
