// Bytes as a line writes them.
use std::alloc::{AllocError, Global};

/// The bytes of a text in which `\r`, `\n`, `\t` and `\0` stand for control bytes, and `[63 x]` for `x` sixty-three times.
pub fn bytes_of(alloc: Global, text: &str) -> Result<Vec<u8>, AllocError> {
    let mut bytes = Vec::new(alloc);
    for part in text.split('[') {
        match part.split_once(']') {
            None => push_written(&mut bytes, part)?,
            Some((repeated, rest)) => {
                push_repeated(&mut bytes, repeated)?;
                push_written(&mut bytes, rest)?;
            }
        }
    }
    Ok(bytes)
}

// What stands behind a number and a blank, so many times.
fn push_repeated(bytes: &mut Vec<u8>, repeated: &str) -> Result<(), AllocError> {
    if let Some((number, piece)) = repeated.split_once(' ') {
        for _ in 0..number.parse::<u32>().unwrap_or(0) {
            push_written(bytes, piece)?;
        }
    }
    Ok(())
}

fn push_written(bytes: &mut Vec<u8>, text: &str) -> Result<(), AllocError> {
    let mut escaped = false;
    for byte in text.as_bytes() {
        if *byte == b'\\' {
            escaped = true;
        } else {
            bytes.push(if escaped { control(*byte) } else { *byte })?;
            escaped = false;
        }
    }
    Ok(())
}

fn control(byte: u8) -> u8 {
    match byte {
        b'r' => b'\r',
        b'n' => b'\n',
        b't' => b'\t',
        b'0' => 0,
        _ => byte,
    }
}
