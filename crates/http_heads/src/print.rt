// The head of a message as it is sent.
ghost use Rattle.std.specs.Prelude.{◌≡◌, ◌++◌, ℕ, List, length, IfOk, OnOk};
ghost use Rattle.http_heads.specs.Heads.{HasRequest, HasResponse};
ghost use Rattle.http_heads.specs.Printed.{version_text, three_digits, field_text, fields_text, request_text, response_text, IsRequestMessage, IsResponseMessage};

use crate::{Field, RequestHead, ResponseHead};
use std::alloc::{AllocError, Global};
use units::Text;

/// The request's head as it is sent. Where the message is a head, the text reads as that message,
/// whatever bytes follow it.
pub fn print_request(alloc: Global, head: &RequestHead) -> Result<Text, AllocError>
    ensures text { IfOk result (λ text. text ≡ request_text head.now) }
    ensures reads { IsRequestMessage head.now → IfOk result (λ text. (more : List ℕ) → HasRequest (text ++ more) head.now (length text)) }
{
    let bytes = request_bytes(alloc, head)?;
    Text::of(alloc, bytes.as_slice())
}

#[tactic(auto, unfolding(crate::specs::Printed::request_text))]
fn request_bytes(alloc: Global, head: &RequestHead) -> Result<Vec<u8>, AllocError>
    ensures { IfOk result (λ bytes. bytes.items ≡ request_text head.now) }
{
    let mut out = Vec::new(alloc);
    out.extend_from_slice(head.method.bytes())?;
    out.push(b' ')?;
    out.extend_from_slice(head.url.bytes())?;
    out.push(b' ')?;
    push_version(&mut out, head.version)?;
    out.extend_from_slice(b"\r\n")?;
    push_fields(&mut out, head.fields.as_slice())?;
    Ok(out)
}

/// The response's head as it is sent, with three digits of its status. Where the message is a head, the
/// text reads as that message, whatever bytes follow it.
pub fn print_response(alloc: Global, head: &ResponseHead) -> Result<Text, AllocError>
    ensures text { IfOk result (λ text. text ≡ response_text head.now) }
    ensures reads { IsResponseMessage head.now → IfOk result (λ text. (more : List ℕ) → HasResponse (text ++ more) head.now (length text)) }
{
    let bytes = response_bytes(alloc, head)?;
    Text::of(alloc, bytes.as_slice())
}

#[tactic(auto, unfolding(crate::specs::Printed::response_text))]
fn response_bytes(alloc: Global, head: &ResponseHead) -> Result<Vec<u8>, AllocError>
    ensures { IfOk result (λ bytes. bytes.items ≡ response_text head.now) }
{
    let mut out = Vec::new(alloc);
    push_version(&mut out, head.version)?;
    out.push(b' ')?;
    push_status(&mut out, head.status)?;
    out.push(b' ')?;
    out.extend_from_slice(head.reason.bytes())?;
    out.extend_from_slice(b"\r\n")?;
    push_fields(&mut out, head.fields.as_slice())?;
    Ok(out)
}

fn push_version(out: &mut Vec<u8>, version: u8) -> Result<(), AllocError>
    ensures { OnOk result (out.new.items ≡ out.old.items ++ version_text version) }
{
    if version == 10 {
        out.extend_from_slice(b"HTTP/1.0")
    } else {
        out.extend_from_slice(b"HTTP/1.1")
    }
}

fn push_status(out: &mut Vec<u8>, status: u16) -> Result<(), AllocError>
    ensures { OnOk result (out.new.items ≡ out.old.items ++ three_digits status) }
{
    let hundreds = b'0' + (status / 100 % 10) as u8;
    let tens = b'0' + (status / 10 % 10) as u8;
    let ones = b'0' + (status % 10) as u8;
    out.extend_from_slice(&[hundreds, tens, ones])
}

// The field lines, and the empty line behind them.
fn push_fields(out: &mut Vec<u8>, fields: &[Field]) -> Result<(), AllocError>
    ensures { OnOk result (out.new.items ≡ out.old.items ++ fields_text fields.now) }
{
    for field in fields {
        push_field(out, field)?;
    }
    out.extend_from_slice(b"\r\n")
}

fn push_field(out: &mut Vec<u8>, field: &Field) -> Result<(), AllocError>
    ensures { OnOk result (out.new.items ≡ out.old.items ++ field_text field.now) }
{
    out.extend_from_slice(field.name.bytes())?;
    out.extend_from_slice(b": ")?;
    out.extend_from_slice(field.value.bytes())?;
    out.extend_from_slice(b"\r\n")
}
