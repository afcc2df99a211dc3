// Fields with one more at their end.
ghost use Rattle.std.specs.Prelude.{◌≡◌, IfOk};
ghost use Rattle.std.specs.Fmt.{decimal};
ghost use Rattle.http_heads.specs.Fields.{appended, replaced, field as one_field};

use crate::{Field, Fields};
use std::alloc::{AllocError, Global};
use units::{Text, write_number};

fn make_field(alloc: Global, name: &[u8], value: &[u8]) -> Result<Field, AllocError>
    ensures { IfOk result (λ field. field ≡ one_field name.now value.now) }
{
    Ok(Field {
        name: Text::of(alloc, name)?,
        value: Text::of(alloc, value)?,
    })
}

/// The fields with one more at the end, however many there are.
pub fn with_field(
    alloc: Global,
    fields: Fields,
    name: &[u8],
    value: &[u8],
) -> Result<Fields, AllocError>
    ensures { IfOk result (λ all. all ≡ appended name.now value.now fields) }
{
    let field = make_field(alloc, name, value)?;
    let mut items = fields.into_vec();
    items.push(field)?;
    Ok(Fields::from_vec(items))
}

/// The fields of other names, and then one of this name.
pub fn with_only_field(
    alloc: Global,
    fields: Fields,
    name: &[u8],
    value: &[u8],
) -> Result<Fields, AllocError>
    ensures { IfOk result (λ all. all ≡ replaced name.now value.now fields) }
{
    let mut fields = fields;
    fields.unset(name);
    with_field(alloc, fields, name, value)
}

/// The fields with one more at the end, whose value is the number in decimal digits.
pub fn with_number(
    alloc: Global,
    fields: Fields,
    name: &[u8],
    number: u64,
) -> Result<Fields, AllocError>
    ensures { IfOk result (λ all. all ≡ appended name.now (decimal number) fields) }
{
    let digits = write_number(alloc, number)?;
    with_field(alloc, fields, name, digits.bytes())
}
