// What is told of command lines and refusals.
use crate::escapes::{unescaped, words_of};
use command_line::{CommandName, OrderError, read_load, read_order};
use diagnostics::{Help, order_fault, replay_fault, session_refusal, unseen_refusal, vcl_refusal};
use std::alloc::{AllocError, Global};
use units::Text;
use vcl_tree::Refusal;

const KINDS: [Refusal; 12] = [
    Refusal::Token,
    Refusal::Syntax,
    Refusal::Version,
    Refusal::TooDeep,
    Refusal::Unknown,
    Refusal::Twice,
    Refusal::Kind,
    Refusal::NotHere,
    Refusal::Recursion,
    Refusal::Pattern,
    Refusal::NoBackend,
    Refusal::TooLong,
];

/// What help the words ask for (`help`), what is told of options (`serve`, `load`), of a command line whose second word is
/// faulty (`replay`) or in which a word is missing (`replay-`), and of a refusal: `vcl PLACE KIND TEXT` or a session's kind.
pub fn told(alloc: Global, name: &str, rest: &str) -> Result<String, AllocError> {
    match name {
        "vcl" => refusal_told(alloc, rest),
        "session_fault" => {
            String::from_str(alloc, session_refusal(rest.parse::<u8>().unwrap_or(0)))
        }
        _ => words_told(alloc, name, words_of(alloc, rest)?.as_slice()),
    }
}

fn words_told(alloc: Global, name: &str, words: &[Text]) -> Result<String, AllocError> {
    match name {
        "help" => help_told(alloc, words),
        "serve" => order_told(alloc, CommandName::Serve, words, read_order(words).err()),
        "load" => order_told(alloc, CommandName::Load, words, read_load(words).err()),
        "replay" => replay_fault(alloc, words, words.get(1)),
        _ => replay_fault(alloc, words, None),
    }
}

fn help_told(alloc: Global, words: &[Text]) -> Result<String, AllocError> {
    match Help::of(words) {
        Some(help) => format!(in alloc; "{help}"),
        None => String::from_str(alloc, "no help"),
    }
}

fn order_told(
    alloc: Global,
    command: CommandName,
    options: &[Text],
    error: Option<OrderError>,
) -> Result<String, AllocError> {
    match error {
        None => String::from_str(alloc, "an order"),
        Some(OrderError::Refused(fault)) => order_fault(alloc, command, options, fault),
        Some(OrderError::NoMemory) => Err(AllocError),
    }
}

// The refusal at a place of a text, or without the text where none stands there.
fn refusal_told(alloc: Global, line: &str) -> Result<String, AllocError> {
    let (place, rest) = line.split_once(' ').unwrap_or((line, ""));
    let (kind, text) = rest.split_once(' ').unwrap_or((rest, ""));
    let place = place.parse::<u32>().unwrap_or(0);
    let kind = kind_of(kind.parse::<usize>().unwrap_or(1));
    let file = Text::of(alloc, b"site.vcl")?;
    if text.is_empty() {
        return unseen_refusal(alloc, &file, place, kind);
    }
    vcl_refusal(alloc, &file, &unescaped(alloc, text)?, place, kind)
}

fn kind_of(number: usize) -> Refusal {
    match KINDS.get(number.saturating_sub(1)) {
        Some(kind) => *kind,
        None => Refusal::Token,
    }
}
