// Windows after results.
use probe_window::{Window, WindowError};
use std::alloc::{AllocError, Global};

/// The health of a window of these numbers, `WINDOW THRESHOLD INITIAL`, and after each of the results behind them: `+` is a good
/// one.
pub fn healths_shown(alloc: Global, row: &str) -> Result<String, AllocError> {
    let (numbers, results) = row.split_once(':').unwrap_or((row, ""));
    let (window, threshold, initial) = three_of(numbers);
    let mut shown = String::new(alloc);
    match Window::of(window, threshold, initial) {
        Ok(mut window) => push_healths(&mut shown, &mut window, results)?,
        Err(WindowError::Range) => shown.push_str("out of range")?,
        Err(WindowError::NoMemory) => shown.push_str("no memory")?,
    }
    Ok(shown)
}

fn push_healths(shown: &mut String, window: &mut Window, results: &str) -> Result<(), AllocError> {
    push_health(shown, window.healthy())?;
    for result in results.chars() {
        window.push(result == '+');
        push_health(shown, window.healthy())?;
    }
    Ok(())
}

fn push_health(shown: &mut String, healthy: bool) -> Result<(), AllocError> {
    shown.push(if healthy { 'y' } else { 'n' })
}

/// Three numbers with slashes between.
pub fn three_of(row: &str) -> (u32, u32, u32) {
    let (first, rest) = row.split_once('/').unwrap_or((row, ""));
    let (second, third) = rest.split_once('/').unwrap_or((rest, ""));
    (number_of(first), number_of(second), number_of(third))
}

fn number_of(word: &str) -> u32 {
    word.parse::<u32>().unwrap_or(77)
}
