// Texts and values as rows write them.
use std::alloc::{AllocError, Global};
use units::{Text, quoted};
use vcl_values::{Backend, Value};

/// A quoted text, so many times as the number before it says.
pub fn text_of(alloc: Global, word: &str) -> Result<Text, AllocError> {
    let (number, _) = word.split_once('"').unwrap_or(("", ""));
    let mut bytes = Vec::new(alloc);
    if let Some((piece, _)) = quoted(alloc, word.as_bytes(), number.len())? {
        for _ in 0..number.parse::<u32>().unwrap_or(1) {
            bytes.extend_from_slice(piece.bytes())?;
        }
    }
    Text::from_vec(bytes)
}

/// A value: a quoted text, or its type with a colon and what it is.
pub fn value_of(alloc: Global, word: &str) -> Result<Value, AllocError> {
    let (kind, rest) = word.split_once(':').unwrap_or((word, ""));
    Ok(match kind {
        "absent" => Value::String(None),
        "int" => Value::Int(rest.parse::<i64>().unwrap_or(1)),
        "duration" => Value::Duration(rest.parse::<i64>().unwrap_or(1)),
        "bool" => Value::Bool(rest == "true"),
        "ip" => Value::Ip(address_of(rest)),
        "none" => Value::Backend(None),
        "backend" | "declared_none" => Value::Backend(Some(Backend {
            name: Text::of(alloc, rest.as_bytes())?,
            key: None,
            declared_none: kind == "declared_none",
        })),
        _ => Value::String(Some(text_of(alloc, word)?)),
    })
}

fn address_of(word: &str) -> [u8; 4] {
    let mut address = [0; 4];
    for (byte, part) in address.iter_mut().zip(word.split('.')) {
        *byte = part.parse::<u8>().unwrap_or(1);
    }
    address
}

/// The text as it prints, or the length of a long one.
pub fn text_shown(alloc: Global, text: &Text) -> Result<String, AllocError> {
    let count = text.bytes().len();
    if count > 100 {
        format!(in alloc; "{count} bytes")
    } else {
        format!(in alloc; "{text:?}")
    }
}
