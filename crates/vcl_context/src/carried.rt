// What the lines of a head carry.
ghost use Rattle.std.specs.Prelude.{◌≡◌};
ghost use Rattle.std.specs.List.{list_all};
ghost use Rattle.std.specs.Str.{is_utf8};
ghost use Rattle.http_header.specs.Token.{is_token_byte};
ghost use Rattle.httparse.specs.Grammar.{is_uri_byte};
ghost use Rattle.vcl_context.specs.Carried.{is_token, is_target, is_reason, is_status, is_field, is_line};

use http_header::is_token_char;
use http_heads::MAX_NAME;

pub(crate) fn is_token(text: &[u8]) -> bool
    ensures { result ≡ is_token text.now }
{
    !text.is_empty() && has_token_bytes(text)
}

fn has_token_bytes(text: &[u8]) -> bool
    ensures { result ≡ list_all is_token_byte text.now }
{
    text.iter().all(|byte| is_token_char(*byte))
}

pub(crate) fn is_target(text: &[u8]) -> bool
    ensures { result ≡ is_target text.now }
{
    !text.is_empty() && has_target_bytes(text) && is_utf8(text)
}

fn has_target_bytes(text: &[u8]) -> bool
    ensures { result ≡ list_all is_uri_byte text.now }
{
    text.iter().all(|byte| *byte > b' ' && *byte != 0x7f)
}

fn is_utf8(text: &[u8]) -> bool
    ensures { result ≡ is_utf8 text.now }
{
    match str::from_utf8(text) {
        Ok(_) => true,
        Err(_) => false,
    }
}

pub(crate) fn is_reason(text: &[u8]) -> bool
    ensures { result ≡ is_reason text.now }
{
    text.iter()
        .all(|byte| *byte == b'\t' || (*byte >= b' ' && *byte != 0x7f))
}

pub(crate) fn is_status(number: i64) -> bool
    ensures { result ≡ is_status number }
{
    199 < number && number < 1000
}

pub(crate) fn is_field(name: &[u8], value: &[u8]) -> bool
    ensures { result ≡ is_field name.now value.now }
{
    is_token(name) && name.len() <= MAX_NAME && is_line(value)
}

// No CR, LF and NUL.
fn is_line(value: &[u8]) -> bool
    ensures { result ≡ is_line value.now }
{
    value
        .iter()
        .all(|byte| !(*byte == 0 || *byte == b'\n' || *byte == b'\r'))
}
