// What is read of a text.
use journal_reader::{ReadError, read_line};
use journal_text::{Line, push_line};
use std::alloc::{AllocError, Global};

/// What kind of line the text is, and the line as it is written again where that is another text; or why it is none.
pub fn said(alloc: Global, text: &str) -> Result<String, AllocError> {
    match read_line(alloc, text.as_bytes()) {
        Ok(line) => shown(alloc, text, &line),
        Err(ReadError::Refused(refusal)) => {
            format!(in alloc; "{} {:?}", refusal.column, refusal.fault)
        }
        Err(ReadError::NoMemory) => String::from_str(alloc, "no memory"),
    }
}

fn shown(alloc: Global, text: &str, line: &Line) -> Result<String, AllocError> {
    let kind = kind_of(line);
    let mut out = Vec::new(alloc);
    push_line(&mut out, alloc, line)?;
    let out = String::from_utf8_lossy(alloc, out.as_slice())?;
    let written = out.lines().next().unwrap_or("");
    if written == text {
        String::from_str(alloc, kind)
    } else {
        format!(in alloc; "{kind} {written}")
    }
}

fn kind_of(line: &Line) -> &'static str {
    match line {
        Line::First(_) => "first",
        Line::Entry(_) => "entry",
        Line::Cut => "cut",
        Line::Close => "close",
    }
}
