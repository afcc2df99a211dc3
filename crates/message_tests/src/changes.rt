// Changes of fields, and how a message with the fields prints.
use http_heads::{FieldError, Fields, RequestHead, ResponseHead, print_request, print_response};
use std::alloc::{AllocError, Global};
use units::Text;

/// What is said on the way, and the message at the end, which is a request where the row begins with `asked`. A change is
/// `+NAME:VALUE` to append, `=NAME:VALUE` to set and `-NAME` to unset; `?NAME` asks for the count and the first value. A
/// number and a star stand before one that is made so many times, and `_` for a line feed.
pub fn changes_shown(alloc: Global, word: &str, row: &str) -> Result<String, AllocError> {
    let mut fields = Fields::new(alloc);
    let mut out = String::new(alloc);
    for word in row.split(' ') {
        let (number, change) = word.split_once('*').unwrap_or(("1", word));
        for _ in 0..number.parse::<u32>().unwrap_or(0) {
            make(alloc, &mut fields, change, &mut out)?;
        }
    }
    let count = fields.len();
    let message = if word == "asked" {
        request_of(alloc, fields)?
    } else {
        response_of(alloc, fields)?
    };
    write!(out, "{count} {message:?}")?;
    Ok(out)
}

fn make(
    alloc: Global,
    fields: &mut Fields,
    change: &str,
    out: &mut String,
) -> Result<(), AllocError> {
    let (sign, rest) = change.split_at_checked(1).unwrap_or(("", ""));
    let (name, value) = rest.split_once(':').unwrap_or((rest, ""));
    let name = text_of(alloc, name)?;
    let value = text_of(alloc, value)?;
    match sign {
        "+" => tell(out, change, fields.append(&name, &value)),
        "=" => tell(out, change, fields.set(&name, &value)),
        "-" => {
            fields.unset(name.bytes());
            Ok(())
        }
        _ => {
            let count = fields.count(name.bytes());
            let first = fields.first(name.bytes());
            write!(out, "{count} {first:?}, ")
        }
    }
}

fn text_of(alloc: Global, word: &str) -> Result<Text, AllocError> {
    let mut bytes = Vec::new(alloc);
    for byte in word.as_bytes() {
        bytes.push(if *byte == b'_' { b'\n' } else { *byte })?;
    }
    Text::from_vec(bytes)
}

// Says that a change was refused.
fn tell(out: &mut String, change: &str, made: Result<(), FieldError>) -> Result<(), AllocError> {
    match made {
        Ok(()) => Ok(()),
        Err(error) => write!(out, "{change} {error:?}, "),
    }
}

fn request_of(alloc: Global, fields: Fields) -> Result<Text, AllocError> {
    let request = RequestHead {
        method: Text::of(alloc, b"GET")?,
        url: Text::of(alloc, b"/a")?,
        version: 11,
        fields,
    };
    print_request(alloc, &request)
}

fn response_of(alloc: Global, fields: Fields) -> Result<Text, AllocError> {
    let response = ResponseHead {
        version: 10,
        status: 7,
        reason: Text::of(alloc, b"")?,
        fields,
    };
    print_response(alloc, &response)
}
