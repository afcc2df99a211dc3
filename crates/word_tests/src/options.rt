// The options of a server and of a load.
use crate::escapes::words_of;
use command_line::{Fault, LoadOptions, OrderError, ServeOptions, read_load, read_order};
use std::alloc::{AllocError, Global};
use units::Text;

/// The order of a server that the words give, or their first fault and the word that is to blame.
pub fn options_shown(alloc: Global, row: &str) -> Result<String, AllocError> {
    let words = words_of(alloc, row)?;
    match read_order(words.as_slice()) {
        Ok(order) => order_shown(alloc, &order),
        Err(error) => error_shown(alloc, words.as_slice(), error),
    }
}

/// The same of a load.
pub fn load_shown(alloc: Global, row: &str) -> Result<String, AllocError> {
    let words = words_of(alloc, row)?;
    match read_load(words.as_slice()) {
        Ok(LoadOptions { seed, steps }) => format!(in alloc; "seed {seed} steps {steps}"),
        Err(error) => error_shown(alloc, words.as_slice(), error),
    }
}

fn error_shown(alloc: Global, words: &[Text], error: OrderError) -> Result<String, AllocError> {
    match error {
        OrderError::Refused(fault) => fault_shown(alloc, words, fault),
        OrderError::NoMemory => Err(AllocError),
    }
}

fn order_shown(alloc: Global, order: &ServeOptions) -> Result<String, AllocError> {
    let file = str::from_utf8(order.file.bytes()).unwrap_or("?");
    let (port, workers, conns) = (order.port, order.workers, order.conns);
    let mut out = format!(in alloc; "port {port} file {file} workers {workers} conns {conns}")?;
    if let Some(port) = order.cli {
        write!(out, " cli {port}")?;
    }
    write!(out, " room {} history {}", order.room, order.history)?;
    Ok(out)
}

fn fault_shown(alloc: Global, words: &[Text], fault: Fault) -> Result<String, AllocError> {
    match fault {
        Fault::Unknown(place) => format!(in alloc; "unknown {place} {}", word_at(words, place)),
        Fault::Twice(place) => format!(in alloc; "twice {place} {}", word_at(words, place)),
        Fault::NoValue(place) => format!(in alloc; "no value {place} {}", word_at(words, place)),
        Fault::BadValue(place, option) => {
            format!(in alloc; "bad value {place} {} of {option:?}", word_at(words, place))
        }
        Fault::Missing(option) => format!(in alloc; "missing {option:?}"),
    }
}

fn word_at(words: &[Text], place: usize) -> &str {
    match words.get(place) {
        Some(word) => str::from_utf8(word.bytes()).unwrap_or("?"),
        None => "?",
    }
}
