// The client's address in its request.
ghost use Rattle.std.specs.Prelude.{◌≡◌, ◌++◌, codes, IfOk, OnOk};
ghost use Rattle.vcl_values.specs.Values.{address_text};
ghost use Rattle.http_heads.specs.Fields.{is_named};
ghost use Rattle.client_graph.specs.Forwarded.{with_forwarded_for, earlier, earlier_in};

use http_heads::{Field, Fields, with_only_field};
use std::alloc::{AllocError, Global};
use units::{Text, fold_eq};
use vcl_values::Value;

fn push_earlier(out: &mut Vec<u8>, field: &Field) -> Result<(), AllocError>
    ensures { OnOk result (out.new.items ≡ out.old.items ++ earlier_in field.now) }
{
    if fold_eq(b"x-forwarded-for", field.name.bytes()) {
        out.extend_from_slice(field.value.bytes())?;
        out.extend_from_slice(b", ")?;
    }
    Ok(())
}

fn write_earlier(alloc: Global, fields: &[Field]) -> Result<Vec<u8>, AllocError>
    ensures { IfOk result (λ out. out.items ≡ earlier fields.now) }
{
    let mut out = Vec::new(alloc);
    for field in fields {
        push_earlier(&mut out, field)?;
    }
    Ok(out)
}

fn write_all(alloc: Global, fields: &[Field], peer: [u8; 4]) -> Result<Text, AllocError>
    ensures { IfOk result (λ text. text ≡ earlier fields.now ++ address_text peer) }
{
    let mut out = write_earlier(alloc, fields)?;
    let address = Value::Ip(peer).text(alloc)?;
    out.extend_from_slice(address.bytes())?;
    Text::from_vec(out)
}

/// The fields with the address that the request came from behind those that X-Forwarded-For has, in one field at the end.
pub fn forward(alloc: Global, fields: Fields, peer: [u8; 4]) -> Result<Fields, AllocError>
    ensures { IfOk result (λ all. all ≡ with_forwarded_for peer fields) }
{
    let text = write_all(alloc, fields.as_slice(), peer)?;
    with_only_field(alloc, fields, b"X-Forwarded-For", text.bytes())
}
