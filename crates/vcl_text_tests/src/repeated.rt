// Texts in which `[63 x]` stands for `x` sixty-three times.
use std::alloc::{AllocError, Global};

/// The text with each repeated piece as often as it stands there.
pub fn expanded(alloc: Global, text: &str) -> Result<String, AllocError> {
    let mut out = String::new(alloc);
    for part in text.split('[') {
        match part.split_once(']') {
            None => out.push_str(part)?,
            Some((repeated, rest)) => {
                push_repeated(&mut out, repeated)?;
                out.push_str(rest)?;
            }
        }
    }
    Ok(out)
}

// What stands behind a number and a blank, so many times.
fn push_repeated(out: &mut String, repeated: &str) -> Result<(), AllocError> {
    if let Some((number, piece)) = repeated.split_once(' ') {
        for _ in 0..number.parse::<u32>().unwrap_or(0) {
            out.push_str(piece)?;
        }
    }
    Ok(())
}
