// The words of steps, and of what is said of them.
use std::alloc::{AllocError, Global};
use units::{Sequence, Text};

/// The first word, and what is behind it.
pub fn first_word(step: &str) -> (&str, &str) {
    step.split_once(' ').unwrap_or((step, ""))
}

/// The number that the word writes, or 0.
pub fn number(word: &str) -> u64 {
    word.parse().unwrap_or(0)
}

/// The numbers that the words write, with `,` between them.
pub fn numbers(alloc: Global, words: &str) -> Result<Vec<u64>, AllocError> {
    let mut numbers = Vec::new(alloc);
    for word in words.split(',') {
        if !word.is_empty() {
            numbers.push(number(word))?;
        }
    }
    Ok(numbers)
}

/// The texts of the words, with `,` between them.
pub fn texts(alloc: Global, words: &str) -> Result<Sequence<Text>, AllocError> {
    let mut texts = Vec::new(alloc);
    for word in words.split(',') {
        if !word.is_empty() {
            texts.push(Text::of(alloc, word.as_bytes())?)?;
        }
    }
    Ok(Sequence::from_vec(texts))
}

/// The numbers, with blanks between them.
pub fn say_numbers(out: &mut String, numbers: &[u64]) -> Result<(), AllocError> {
    if numbers.is_empty() {
        return out.push_str("none");
    }
    for (place, number) in numbers.iter().enumerate() {
        if place > 0 {
            out.push(' ')?;
        }
        write!(out, "{number}")?;
    }
    Ok(())
}

/// The texts, with `,` between them.
pub fn say_texts(out: &mut String, texts: &[Text]) -> Result<(), AllocError> {
    for (place, text) in texts.iter().enumerate() {
        if place > 0 {
            out.push(',')?;
        }
        write!(out, "{text:?}")?;
    }
    Ok(())
}
