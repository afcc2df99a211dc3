// Texts and fields by the words of a row.
use http_heads::{Field, Fields};
use row_settings::{setting, value};
use std::alloc::{AllocError, Global};
use units::{Sequence, Text};

/// The setting's text, empty where there is none.
pub fn text(alloc: Global, words: &str, name: &str) -> Result<Text, AllocError> {
    Text::of(alloc, setting(words, name).as_bytes())
}

/// The setting's texts, with commas between: none where nothing stands there.
pub fn texts(alloc: Global, words: &str, name: &str) -> Result<Sequence<Text>, AllocError> {
    match value(words, name) {
        None | Some("") => Ok(Sequence::new(alloc)),
        Some(list) => parts(alloc, list),
    }
}

/// The texts with commas between: one at least.
pub fn parts(alloc: Global, list: &str) -> Result<Sequence<Text>, AllocError> {
    let mut texts = Vec::new(alloc);
    for part in list.split(',') {
        texts.push(Text::of(alloc, part.as_bytes())?)?;
    }
    Ok(Sequence::from_vec(texts))
}

/// The fields of the words `NAME:VALUE`, in which `_` stands for a blank and `|` for a tab.
pub fn fields(alloc: Global, words: &str) -> Result<Fields, AllocError> {
    let mut fields = Vec::new(alloc);
    for word in words.split(' ') {
        if let Some((name, value)) = word.split_once(':') {
            fields.push(field(alloc, name, value)?)?;
        }
    }
    Ok(Fields::from_vec(fields))
}

fn field(alloc: Global, name: &str, value: &str) -> Result<Field, AllocError> {
    let name = Text::of(alloc, name.as_bytes())?;
    let value = spaced(alloc, value)?;
    Ok(Field { name, value })
}

fn spaced(alloc: Global, value: &str) -> Result<Text, AllocError> {
    let mut bytes = Vec::new(alloc);
    for byte in value.as_bytes() {
        bytes.push(match *byte {
            b'_' => b' ',
            b'|' => b'\t',
            other => other,
        })?;
    }
    Text::from_vec(bytes)
}
