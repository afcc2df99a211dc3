// What VCL sees of a request that came.
ghost use Rattle.std.specs.Prelude.{◌≡◌, List, codes, filter, Some, IfOk};
ghost use Rattle.http_heads.specs.declared.fields.Field.{Field as Item};
ghost use Rattle.http_heads.specs.Fields.{is_named};
ghost use Rattle.seen_request.specs.Seen.{is_of_connection as of_connection, is_seen as seen_field, seen_fields as seen_of, at_site as seen_at, seen};

use crate::targets::{authority_of, behind_scheme, path_of};
use http_heads::{Field, Fields, RequestHead, is_listed, with_only_field};
use std::alloc::{AllocError, Global};
use units::{Copied, fold_eq};

fn has_name(name: &[u8], field: &Field) -> bool
    ensures { result ≡ is_named name.now field.now }
{
    fold_eq(name, field.name.bytes())
}

// The Connection fields, which are mostly none or one: each field is looked for in these alone.
fn connection_fields(alloc: Global, fields: &Fields) -> Result<Fields, AllocError>
    ensures { IfOk result (λ found. found ≡ filter (is_named (codes "connection")) fields.now) }
{
    let mut found = Vec::new(alloc);
    for field in fields.as_slice() {
        if has_name(b"connection", field) {
            found.push(field.copied(alloc)?)?;
        }
    }
    Ok(Fields::from_vec(found))
}

fn is_of_connection(connection: &Fields, field: &Field) -> bool
    ensures { (fields : List Item) → connection.now ≡ filter (is_named (codes "connection")) fields → result ≡ of_connection fields field.now }
{
    has_name(b"connection", field) || is_listed(connection, b"connection", field.name.bytes())
}

// Of the fields of which these are the Connection fields.
fn is_seen(connection: &Fields, field: &Field) -> bool
    ensures { (fields : List Item) → connection.now ≡ filter (is_named (codes "connection")) fields → result ≡ seen_field fields field.now }
{
    has_name(b"host", field) || !is_of_connection(connection, field)
}

fn seen_fields(alloc: Global, fields: &Fields) -> Result<Fields, AllocError>
    ensures { IfOk result (λ kept. kept ≡ seen_of fields.now) }
{
    let connection = connection_fields(alloc, fields)?;
    let mut kept = Vec::new(alloc);
    for field in fields.as_slice() {
        if is_seen(&connection, field) {
            kept.push(field.copied(alloc)?)?;
        }
    }
    Ok(Fields::from_vec(kept))
}

// Of an absolute target, of which this stands behind its scheme. The fields are those that are seen.
fn at_site(
    alloc: Global,
    rest: &[u8],
    head: &RequestHead,
    fields: Fields,
) -> Result<RequestHead, AllocError>
    ensures { IfOk result (λ split. split ≡ seen_at (Some rest.now) (record head.now { fields = fields })) }
{
    let fields = with_only_field(alloc, fields, b"Host", authority_of(rest))?;
    Ok(RequestHead {
        method: head.method.copy()?,
        url: path_of(alloc, rest)?,
        version: head.version,
        fields,
    })
}

/// The request as VCL sees it: the fields that its Connection names, but Host, and Connection itself are gone, and of an
/// absolute target of http or https the authority is the one Host, and the path with its query the URL.
pub fn see(alloc: Global, head: &RequestHead) -> Result<RequestHead, AllocError>
    ensures { IfOk result (λ view. view ≡ seen head.now) }
{
    let fields = seen_fields(alloc, &head.fields)?;
    match behind_scheme(head.url.bytes()) {
        Some(rest) => at_site(alloc, rest, head, fields),
        None => Ok(RequestHead {
            method: head.method.copy()?,
            url: head.url.copy()?,
            version: head.version,
            fields,
        }),
    }
}
