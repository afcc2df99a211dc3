// The line of an exchange.
ghost use Rattle.std.specs.Prelude.{◌≡◌, ◌++◌, IfOk, OnOk};
ghost use Rattle.std.specs.Option.{option_copied};
ghost use Rattle.std.specs.List.{position};
ghost use Rattle.units.specs.Quoted.{quote_of};
ghost use Rattle.http_heads.specs.Printed.{three_digits, version_text};
ghost use Rattle.access_log.specs.Lines.{front_text, is_blank, last_value, line_text, middle_text, numbers_text, outcome_text, request_line, request_text, seconds_text, status_text, told_text, value_of};

use crate::Exchange;
use http_heads::{Field, RequestHead, ResponseHead};
use std::alloc::{AllocError, Global};
use units::{Text, fold_eq, push_number, quote};

// Puts a text between quotes behind.
fn push_quoted(out: &mut Vec<u8>, alloc: Global, text: &[u8]) -> Result<(), AllocError>
    ensures { OnOk result (out.new.items ≡ out.old.items ++ quote_of text.now) }
{
    out.extend_from_slice(quote(alloc, text)?.bytes())
}

fn push_three_digits(out: &mut Vec<u8>, number: u64) -> Result<(), AllocError>
    ensures { OnOk result (out.new.items ≡ out.old.items ++ three_digits number) }
{
    let hundreds = b'0' + (number / 100 % 10) as u8;
    let tens = b'0' + (number / 10 % 10) as u8;
    let ones = b'0' + (number % 10) as u8;
    out.extend_from_slice(&[hundreds, tens, ones])
}

fn version_name(version: u8) -> &'static [u8]
    ensures { result.now ≡ version_text version }
{
    if version == 10 {
        b"HTTP/1.0"
    } else {
        b"HTTP/1.1"
    }
}

fn write_request_line(alloc: Global, head: &RequestHead) -> Result<Vec<u8>, AllocError>
    ensures { IfOk result (λ line. line.items ≡ request_line head.now) }
{
    let mut line = Vec::new(alloc);
    line.extend_from_slice(head.method.bytes())?;
    line.push(b' ')?;
    line.extend_from_slice(head.url.bytes())?;
    line.push(b' ')?;
    line.extend_from_slice(version_name(head.version))?;
    Ok(line)
}

fn push_request(
    out: &mut Vec<u8>,
    alloc: Global,
    request: &Option<RequestHead>,
) -> Result<(), AllocError>
    ensures { OnOk result (out.new.items ≡ out.old.items ++ request_text request.now) }
{
    match request {
        Some(head) => push_quoted(out, alloc, write_request_line(alloc, head)?.as_slice()),
        None => push_quoted(out, alloc, b"-"),
    }
}

// The value of a request's first field of the name, or a dash.
fn told_value<'r>(request: &'r Option<RequestHead>, name: &[u8]) -> &'r [u8]
    ensures { quote_of result.now ≡ told_text name.now request.now }
{
    match request {
        Some(head) => match head.fields.first(name) {
            Some(value) => value.bytes(),
            None => b"-",
        },
        None => b"-",
    }
}

fn push_status(out: &mut Vec<u8>, response: &Option<ResponseHead>) -> Result<(), AllocError>
    ensures { OnOk result (out.new.items ≡ out.old.items ++ status_text response.now) }
{
    match response {
        Some(head) => push_three_digits(out, u64::from(head.status)),
        None => out.extend_from_slice(b"-"),
    }
}

fn value_of<'f>(field: &'f Field, name: &[u8]) -> Option<&'f Text>
    ensures { option_copied result ≡ value_of name.now field.now }
{
    if fold_eq(name, field.name.bytes()) {
        Some(&field.value)
    } else {
        None
    }
}

fn last_of<'f>(fields: &'f [Field], name: &[u8]) -> Option<&'f Text>
    ensures { option_copied result ≡ last_value name.now fields.now }
{
    let [first, rest @ ..] = fields else {
        return None;
    };
    match last_of(rest, name) {
        Some(value) => Some(value),
        None => value_of(first, name),
    }
}

fn blank_place(value: &[u8]) -> Option<usize>
    ensures { result ≡ position is_blank value.now }
{
    value.iter().position(|byte| *byte == b' ')
}

fn push_numbers(out: &mut Vec<u8>, value: &[u8]) -> Result<(), AllocError>
    ensures { OnOk result (out.new.items ≡ out.old.items ++ numbers_text value.now) }
{
    match blank_place(value) {
        Some(place) => {
            out.extend_from_slice(b"hit ")?;
            out.extend_from_slice(&value[..place])
        }
        None => {
            out.extend_from_slice(b"miss ")?;
            out.extend_from_slice(value)
        }
    }
}

fn push_outcome(out: &mut Vec<u8>, response: &Option<ResponseHead>) -> Result<(), AllocError>
    ensures { OnOk result (out.new.items ≡ out.old.items ++ outcome_text response.now) }
{
    let Some(head) = response else {
        return out.extend_from_slice(b"- -");
    };
    match last_of(head.fields.as_slice(), b"X-Varnish") {
        Some(value) => push_numbers(out, value.bytes()),
        None => out.extend_from_slice(b"- -"),
    }
}

fn push_seconds(out: &mut Vec<u8>, alloc: Global, millis: u64) -> Result<(), AllocError>
    ensures { OnOk result (out.new.items ≡ out.old.items ++ seconds_text millis) }
{
    push_number(out, alloc, millis / 1000)?;
    out.push(b'.')?;
    push_three_digits(out, millis)
}

fn push_front(
    out: &mut Vec<u8>,
    alloc: Global,
    exchange: &Exchange,
    moment: &[u8],
) -> Result<(), AllocError>
    ensures { OnOk result (out.new.items ≡ out.old.items ++ front_text exchange.now moment.now) }
{
    out.extend_from_slice(exchange.address.bytes())?;
    out.extend_from_slice(b" - - [")?;
    out.extend_from_slice(moment)?;
    out.extend_from_slice(b"] ")?;
    push_request(out, alloc, &exchange.request)
}

fn push_middle(out: &mut Vec<u8>, alloc: Global, exchange: &Exchange) -> Result<(), AllocError>
    ensures { OnOk result (out.new.items ≡ out.old.items ++ middle_text exchange.now) }
{
    out.push(b' ')?;
    push_status(out, &exchange.response)?;
    out.push(b' ')?;
    push_number(out, alloc, exchange.sent)?;
    out.push(b' ')?;
    push_quoted(out, alloc, told_value(&exchange.request, b"Referer"))?;
    out.push(b' ')?;
    push_quoted(out, alloc, told_value(&exchange.request, b"User-Agent"))
}

/// The line of an exchange that was over at this moment, with LF behind it: the combined form of web servers' logs, then the seconds
/// that it took, `hit` or `miss`, and the number of the field X-Varnish. What no stored object answered is a miss. A dash stands for
/// what isn't there.
pub fn write_line(alloc: Global, exchange: &Exchange, moment: &[u8]) -> Result<Vec<u8>, AllocError>
    ensures { IfOk result (λ line. line.items ≡ line_text exchange.now moment.now) }
{
    let mut line = Vec::new(alloc);
    push_front(&mut line, alloc, exchange, moment)?;
    push_middle(&mut line, alloc, exchange)?;
    line.push(b' ')?;
    push_seconds(&mut line, alloc, exchange.millis)?;
    line.push(b' ')?;
    push_outcome(&mut line, &exchange.response)?;
    line.push(b'\n')?;
    Ok(line)
}
