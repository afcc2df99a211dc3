// Bytes of a text that a line can't have.
use std::alloc::{AllocError, Global};
use units::Text;

/// The words of a line, with their escapes read.
pub fn words_of(alloc: Global, line: &str) -> Result<Vec<Text>, AllocError> {
    let mut words = Vec::new(alloc);
    for word in line.split(' ').filter(|word| !word.is_empty()) {
        words.push(unescaped(alloc, word)?)?;
    }
    Ok(words)
}

/// The text, in which `\n`, `\t` and `\r` stand for those bytes and `\x` for one that is no UTF-8.
pub fn unescaped(alloc: Global, line: &str) -> Result<Text, AllocError> {
    let mut text = Vec::new(alloc);
    let mut is_escaped = false;
    for byte in line.bytes() {
        if is_escaped {
            text.push(byte_of(byte))?;
            is_escaped = false;
        } else if byte == b'\\' {
            is_escaped = true;
        } else {
            text.push(byte)?;
        }
    }
    Text::from_vec(text)
}

// The byte that an escape stands for.
fn byte_of(mark: u8) -> u8 {
    match mark {
        b'n' => b'\n',
        b't' => b'\t',
        b'r' => b'\r',
        b'x' => 0xff,
        other => other,
    }
}
