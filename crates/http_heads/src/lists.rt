// Lists in the fields of a message.
ghost use Rattle.std.specs.Prelude.{◌≡◌, ◌++◌, ◌&&◌, IfOk, OnOk};
ghost use Rattle.std.specs.List.{list_any};
ghost use Rattle.http_heads.specs.Fields.{is_named};
ghost use Rattle.http_heads.specs.Lists.{is_listed as lists_it, is_listed_in, listed as all_listed, listed_in};

use crate::parts::{Separators, has_part, push_parts};
use crate::{Field, Fields};
use std::alloc::{AllocError, Global};
use units::{Sequence, Text, fold_eq};

fn has_name(name: &[u8], field: &Field) -> bool
    ensures { result ≡ is_named name.now field.now }
{
    fold_eq(name, field.name.bytes())
}

fn lists_word(name: &[u8], word: &[u8], field: &Field) -> bool
    ensures { result ≡ is_listed_in name.now word.now field.now }
{
    has_name(name, field) && has_part(field.value.bytes(), word)
}

/// Whether a field of the name lists the word between its commas, where the case of letters isn't regarded.
pub fn is_listed(fields: &Fields, name: &[u8], word: &[u8]) -> bool
    ensures { result ≡ lists_it name.now word.now fields.now }
{
    fields
        .as_slice()
        .iter()
        .any(|field| lists_word(name, word, field))
}

fn push_listed(
    alloc: Global,
    out: &mut Vec<Text>,
    name: &[u8],
    separators: Separators,
    field: &Field,
) -> Result<(), AllocError>
    ensures { OnOk result (out.new.items ≡ out.old.items ++ listed_in separators name.now field.now) }
{
    if has_name(name, field) {
        push_parts(alloc, out, field.value.bytes(), separators)?;
    }
    Ok(())
}

/// What the fields of the name list, in order, without empty elements.
pub fn listed(
    alloc: Global,
    fields: &Fields,
    name: &[u8],
    separators: Separators,
) -> Result<Sequence<Text>, AllocError>
    ensures { IfOk result (λ words. words ≡ all_listed separators name.now fields.now) }
{
    let mut out = Vec::new(alloc);
    for field in fields.as_slice() {
        push_listed(alloc, &mut out, name, separators, field)?;
    }
    Ok(Sequence::from_vec(out))
}
