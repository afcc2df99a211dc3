// Texts as values.
use std::alloc::{AllocError, Global};
use std::collections::HashSet;
use units::{Copied, Shared, Text, fold_eq};

/// The bytes of a row, in which `<ff>` stands for the byte of these digits, and `<ff*3>` for three of them.
pub fn bytes_of(alloc: Global, row: &str) -> Result<Vec<u8>, AllocError> {
    let mut bytes = Vec::new(alloc);
    for part in row.split('<') {
        let (marked, plain) = part.split_once('>').unwrap_or(("", part));
        push_marked(&mut bytes, marked)?;
        bytes.extend_from_slice(plain.as_bytes())?;
    }
    Ok(bytes)
}

fn push_marked(bytes: &mut Vec<u8>, marked: &str) -> Result<(), AllocError> {
    let (digits, times) = marked.split_once('*').unwrap_or((marked, "1"));
    if let Ok(byte) = u8::from_str_radix(digits, 16) {
        for _ in 0..times.parse::<u32>().unwrap_or(0) {
            bytes.push(byte)?;
        }
    }
    Ok(())
}

/// The text as it prints, where it is made of a vector alike and its copy has its bytes.
pub fn text_shown(alloc: Global, row: &str) -> Result<String, AllocError> {
    let bytes = bytes_of(alloc, row)?;
    let text = Text::of(alloc, bytes.as_slice())?;
    let copy = text.copy()?;
    let same = copy.bytes() == bytes.as_slice();
    let made = Text::from_vec(bytes)? == text;
    format!(in alloc; "{text:?} {same} {made}")
}

/// A text that is shared, copied as a shared value and as any other.
pub fn shared_shown(alloc: Global, row: &str) -> Result<String, AllocError> {
    let shared = Shared::new(alloc, Text::of(alloc, row.as_bytes())?)?;
    let copy = shared.copy()?;
    let again = copy.copied(alloc)?;
    let text: &Text = &again;
    format!(in alloc; "{text:?}")
}

/// Whether each of the texts is new in a set.
pub fn seen_shown(alloc: Global, row: &str) -> Result<String, AllocError> {
    let mut seen = HashSet::new(alloc);
    let mut out = String::new(alloc);
    for part in row.split('|') {
        let is_new = seen.insert(Text::of(alloc, part.as_bytes())?)?;
        write!(out, " {is_new}")?;
    }
    Ok(out)
}

/// How two texts compare, or whether they are the same but for capitals.
pub fn pair_shown(alloc: Global, word: &str, row: &str) -> Result<String, AllocError> {
    let (first, second) = row.split_once('|').unwrap_or((row, ""));
    let first = Text::from_vec(bytes_of(alloc, first)?)?;
    let second = Text::from_vec(bytes_of(alloc, second)?)?;
    if word == "fold" {
        let folded = fold_eq(first.bytes(), second.bytes());
        return format!(in alloc; "{folded}");
    }
    let same = first == second;
    let order = first.cmp(&second);
    format!(in alloc; "{same} {order:?}")
}
