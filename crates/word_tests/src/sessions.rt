// Texts of sessions.
use crate::texts::bytes_of;
use session_text::{
    Line, NumberedLine, Session, SessionError, generate, generated_is_short, one_meaning, read,
};
use std::alloc::{AllocError, Global};

/// How the session is read whose second line of three this is.
pub fn line_shown(alloc: Global, row: &str) -> Result<String, AllocError> {
    let line = bytes_of(alloc, row)?;
    let mut text = b"at 0\n".to_vec(alloc)?;
    text.extend_from_slice(line.as_slice())?;
    text.extend_from_slice(b"\nend\n")?;
    size_shown(alloc, text.as_slice())
}

/// How many lines the session has that say something, and where its end is; or its fault.
pub fn session_shown(alloc: Global, row: &str) -> Result<String, AllocError> {
    let text = bytes_of(alloc, row)?;
    one_meaning(text.as_slice());
    size_shown(alloc, text.as_slice())
}

fn size_shown(alloc: Global, text: &[u8]) -> Result<String, AllocError> {
    match read(alloc, text) {
        Ok(Session { lines, end }) => {
            let count = lines.as_slice().len();
            format!(in alloc; "{count} lines, end {end}")
        }
        Err(SessionError::NoMemory) => Err(AllocError),
        Err(fault) => format!(in alloc; "{fault}"),
    }
}

/// What each line of the session says.
pub fn meaning_shown(alloc: Global, row: &str) -> Result<String, AllocError> {
    let text = bytes_of(alloc, row)?;
    lines_shown(alloc, text.as_slice())
}

/// What each line says of the session that is made of a number, with so many steps.
pub fn generated_shown(alloc: Global, row: &str) -> Result<String, AllocError> {
    let (seed, steps) = row.split_once(' ').unwrap_or((row, ""));
    let seed = seed.parse::<u32>().unwrap_or(0);
    let text = generate(alloc, seed, steps.parse::<u32>().unwrap_or(0))?;
    generated_is_short();
    lines_shown(alloc, text.bytes())
}

fn lines_shown(alloc: Global, text: &[u8]) -> Result<String, AllocError> {
    let mut out = String::new(alloc);
    if let Ok(session) = read(alloc, text) {
        for line in session.lines.as_slice() {
            push_line(&mut out, line)?;
        }
    }
    Ok(out)
}

fn push_line(out: &mut String, line: &NumberedLine) -> Result<(), AllocError> {
    let number = line.number;
    match &line.line {
        Line::At(moment) => write!(out, "{number} at {moment};"),
        Line::Req { client, text } => write!(out, "{number} req {client} {text:?};"),
        Line::Reply { fetch, text } => write!(out, "{number} reply {fetch} {text:?};"),
        Line::Fail(fetch) => write!(out, "{number} fail {fetch};"),
        Line::Cli(rest) => write!(out, "{number} cli {rest:?};"),
        Line::Lurk(count) => write!(out, "{number} lurk {count};"),
        Line::Probe { backend, good } => write!(out, "{number} probe {backend:?} {good};"),
    }
}
