// Fields as rows write them, and fields put behind others.
use http_heads::{Field, Fields, with_field, with_number, with_only_field};
use std::alloc::{AllocError, Global};
use units::Text;

/// The fields `NAME:VALUE`, in which `_` stands for a blank.
pub fn fields_of(alloc: Global, words: &str) -> Result<Fields, AllocError> {
    let mut fields = Vec::new(alloc);
    for word in words.split(' ') {
        if let Some((name, value)) = word.split_once(':') {
            fields.push(field_of(alloc, name, value)?)?;
        }
    }
    Ok(Fields::from_vec(fields))
}

fn field_of(alloc: Global, name: &str, value: &str) -> Result<Field, AllocError> {
    Ok(Field {
        name: Text::of(alloc, name.as_bytes())?,
        value: spaced(alloc, value)?,
    })
}

/// The text with a blank for each `_`.
pub fn spaced(alloc: Global, value: &str) -> Result<Text, AllocError> {
    let mut bytes = Vec::new(alloc);
    for byte in value.as_bytes() {
        bytes.push(if *byte == b'_' { b' ' } else { *byte })?;
    }
    Text::from_vec(bytes)
}

/// The names and values.
pub fn fields_shown(alloc: Global, fields: &Fields) -> Result<String, AllocError> {
    let mut out = String::new(alloc);
    for Field { name, value } in fields.as_slice() {
        write!(out, "{name:?} {value:?};")?;
    }
    Ok(out)
}

/// The fields behind the bar with those before it put behind them: `+NAME:VALUE`, `#NAME:NUMBER`, or `=NAME:VALUE` for the only
/// one of its name.
pub fn added_shown(alloc: Global, row: &str) -> Result<String, AllocError> {
    let (changes, words) = row.split_once('|').unwrap_or((row, ""));
    let mut fields = fields_of(alloc, words)?;
    for change in changes.split(' ') {
        fields = with_change(alloc, fields, change)?;
    }
    fields_shown(alloc, &fields)
}

fn with_change(alloc: Global, fields: Fields, change: &str) -> Result<Fields, AllocError> {
    let (sign, rest) = change.split_at_checked(1).unwrap_or(("", ""));
    let (name, value) = rest.split_once(':').unwrap_or((rest, ""));
    let name = name.as_bytes();
    match sign {
        "+" => with_field(alloc, fields, name, value.as_bytes()),
        "#" => with_number(alloc, fields, name, value.parse::<u64>().unwrap_or(0)),
        _ => with_only_field(alloc, fields, name, value.as_bytes()),
    }
}
