// Whether a response is unchanged, and whether it can be asked for again.
ghost use Rattle.std.specs.Prelude.{◌≡◌, ◌&&◌, codes};
ghost use Rattle.std.specs.List.{list_any};
ghost use Rattle.std.specs.Option.{option_copied};
ghost use Rattle.http_heads.specs.Fields.{is_named, first_value};
ghost use Rattle.freshness.specs.Validators.{is_unchanged, has_validator, names as names_it, is_not_later as not_later};

use crate::directives::has_name;
use crate::lifetime::date;
use crate::tags::lists;
use http_heads::{Field, Fields};
use units::trim_blanks;

/// Whether the response that a client has is unchanged (RFC 9110, section 13.2.2): by If-None-Match where its request
/// has such a field, else by If-Modified-Since.
pub fn not_modified(request: &Fields, response: &Fields) -> bool
    ensures { result ≡ is_unchanged request.now response.now }
{
    if request.count(b"if-none-match") == 0 {
        return is_not_later(
            date(request, b"if-modified-since"),
            date(response, b"last-modified"),
        );
    }
    is_named_by_any(request.as_slice(), tag_of(response))
}

/// Whether a response can be asked for again with a condition: its status is 200, and it has ETag or Last-Modified.
pub fn revalidatable(status: u16, fields: &Fields) -> bool
    ensures { result ≡ has_validator status fields.now }
{
    status == 200 && (fields.first(b"etag").is_some() || fields.first(b"last-modified").is_some())
}

fn tag_of(fields: &Fields) -> Option<&[u8]>
    ensures { option_copied result ≡ first_value (codes "etag") fields.now }
{
    match fields.first(b"etag") {
        Some(tag) => Some(tag.bytes()),
        None => None,
    }
}

fn is_named_by_any(fields: &[Field], tag: Option<&[u8]>) -> bool
    ensures { result ≡ list_any (λ field. is_named (codes "if-none-match") field && names_it (option_copied tag.entry) field.value) fields.now }
{
    fields.iter().any(|field| is_named_by(field, tag))
}

fn is_named_by(field: &Field, tag: Option<&[u8]>) -> bool
    ensures { result ≡ (is_named (codes "if-none-match") field.now && names_it (option_copied tag.entry) field.now.value) }
{
    has_name(b"if-none-match", field) && names(tag, field.value.bytes())
}

fn names(tag: Option<&[u8]>, value: &[u8]) -> bool
    ensures { result ≡ names_it (option_copied tag.entry) value.now }
{
    if trim_blanks(value) == b"*".as_slice() {
        return true;
    }
    match tag {
        Some(tag) => lists(tag, value),
        None => false,
    }
}

fn is_not_later(since: Option<u64>, changed: Option<u64>) -> bool
    ensures { result ≡ not_later since changed }
{
    match (since, changed) {
        (Some(since), Some(changed)) => changed <= since,
        _ => false,
    }
}
