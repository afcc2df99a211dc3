// The fields that go on from one connection to the next.
ghost use Rattle.std.specs.Prelude.{◌≡◌, ◌&&◌, ◌||◌, not, filter, codes, IfOk};
ghost use Rattle.http_heads.specs.Fields.{is_named};
ghost use Rattle.http_heads.specs.Lists.{is_listed as lists_it};
ghost use Rattle.backend_request.specs.Passed.{connection_names, request_names, partial_names, is_one_of, is_store as for_store, is_of_connection as of_connection, stays_in_request as goes_in_request, passed_request, passed_reply};

use crate::Purpose;
use http_heads::{Field, Fields, is_listed};
use std::alloc::{AllocError, Global};
use units::{Copied, fold_eq};

fn has_name(name: &[u8], field: &Field) -> bool
    ensures { result ≡ is_named name.now field.now }
{
    fold_eq(name, field.name.bytes())
}

fn is_for_connection(field: &Field) -> bool
    ensures { result ≡ is_one_of connection_names field.now }
{
    has_name(b"connection", field)
        || has_name(b"keep-alive", field)
        || has_name(b"proxy-connection", field)
        || has_name(b"trailer", field)
        || has_name(b"transfer-encoding", field)
        || has_name(b"upgrade", field)
        || has_name(b"content-length", field)
}

fn is_for_server(field: &Field) -> bool
    ensures { result ≡ is_one_of request_names field.now }
{
    has_name(b"te", field) || has_name(b"expect", field)
}

fn is_partial(field: &Field) -> bool
    ensures { result ≡ is_one_of partial_names field.now }
{
    has_name(b"range", field)
        || has_name(b"if-match", field)
        || has_name(b"if-none-match", field)
        || has_name(b"if-modified-since", field)
        || has_name(b"if-unmodified-since", field)
        || has_name(b"if-range", field)
}

fn is_of_connection(fields: &Fields, field: &Field) -> bool
    ensures { result ≡ of_connection fields.now field.now }
{
    is_for_connection(field) || is_listed(fields, b"connection", field.name.bytes())
}

fn is_store(purpose: Purpose) -> bool
    ensures { result ≡ for_store purpose }
{
    match purpose {
        Purpose::Store => true,
        Purpose::Pass => false,
    }
}

fn stays_in_request(purpose: Purpose, fields: &Fields, field: &Field) -> bool
    ensures { result ≡ goes_in_request purpose fields.now field.now }
{
    has_name(b"host", field)
        || !(is_of_connection(fields, field)
            || is_for_server(field)
            || is_store(purpose) && is_partial(field))
}

/// The fields of a client's request that a backend gets: without those of the client's connection, and, where the response
/// may be stored, without those by which less than a whole response comes.
pub fn pass_request(alloc: Global, purpose: Purpose, fields: &Fields) -> Result<Fields, AllocError>
    ensures { IfOk result (λ kept. kept ≡ passed_request purpose fields.now) }
{
    let mut kept = Vec::new(alloc);
    for field in fields.as_slice() {
        if stays_in_request(purpose, fields, field) {
            kept.push(field.copied(alloc)?)?;
        }
    }
    Ok(Fields::from_vec(kept))
}

/// The fields of a backend's reply without those of the backend's connection.
pub fn pass_reply(alloc: Global, fields: &Fields) -> Result<Fields, AllocError>
    ensures { IfOk result (λ kept. kept ≡ passed_reply fields.now) }
{
    let mut kept = Vec::new(alloc);
    for field in fields.as_slice() {
        if !is_of_connection(fields, field) {
            kept.push(field.copied(alloc)?)?;
        }
    }
    Ok(Fields::from_vec(kept))
}
