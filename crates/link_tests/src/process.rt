// Words, messages and clocks of the process.
use crate::bytes::{first_word, numbers_of, shown};
use std::alloc::{AllocError, Global};
use std::random::RandomSource;
use std::rt;
use std::time::Instant;
use system::{SystemClock, WordsError, read_words, tell};
use wire::{Clock, ScriptedClock};

/// The word with this number of those that the program was started with.
pub fn word_shown<R: rt::Env + AllocGlobal>(
    rt: &R,
    alloc: Global,
    number: usize,
) -> Result<String, AllocError> {
    match read_words(rt) {
        Ok(words) => match words.get(number) {
            Some(word) => shown(alloc, word.bytes()),
            None => format!(in alloc; "none"),
        },
        Err(WordsError::Unreadable) => format!(in alloc; "Unreadable"),
        Err(WordsError::NoMemory) => Err(AllocError),
    }
}

/// Writes a line on standard error.
pub fn tell_shown<R: Eprint>(rt: &R, alloc: Global, line: &str) -> Result<String, AllocError> {
    tell(rt, line);
    format!(in alloc; "told")
}

/// So many readings of a clock with these readings and words.
pub fn clock_shown(alloc: Global, count: usize, row: &str) -> Result<String, AllocError> {
    let (readings, words) = first_word(row);
    let (readings, words) = (numbers_of(alloc, readings)?, numbers_of(alloc, words)?);
    if readings.is_empty() || words.is_empty() {
        return format!(in alloc; "nothing to tell");
    }
    let mut clock = ScriptedClock::new(readings, words);
    clock.rest(1);
    let mut out = String::new(alloc);
    for _ in 0..count {
        let (reading, word) = (clock.now(), clock.word());
        write!(out, "{reading} {word}, ")?;
    }
    Ok(out)
}

/// Whether the system's clock is past this moment, and whether it gives two words that aren't the same, as they are in one of
/// 2^64 runs.
pub fn system_clock_shown<R: rt::Clock + RandomSource + Drop>(
    rt: R,
    alloc: Global,
    moment: usize,
) -> Result<String, AllocError> {
    let mut clock = SystemClock::new(rt);
    let is_later = clock.now() > moment as u64;
    let (first, second) = (clock.word(), clock.word());
    format!(in alloc; "{is_later} {}", first != second)
}

/// Whether a rest of so many milliseconds takes no less.
pub fn rest_shown<R: rt::Clock + RandomSource + Copy + Drop>(
    rt: R,
    alloc: Global,
    millis: usize,
) -> Result<String, AllocError> {
    let mut clock = SystemClock::new(rt);
    let Ok(start) = Instant::now(&rt) else {
        return format!(in alloc; "no time");
    };
    clock.rest(millis as u64);
    match start.elapsed(&rt) {
        Ok(spent) => format!(in alloc; "{}", spent.as_millis() >= millis as u128),
        Err(_) => format!(in alloc; "no time"),
    }
}
