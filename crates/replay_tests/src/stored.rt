// A run as lines of the input.
use std::alloc::{AllocError, Global};

/// The line that begins with `@` and says what fails and the words of the run (`runs.rt`), the session, and what is to be told of
/// the run.
#[derive(Drop)]
pub struct Stored {
    pub head: String,
    pub session: Vec<u8>,
    pub wanted: String,
}

impl Stored {
    pub fn new(alloc: Global) -> Stored {
        Stored {
            head: String::new(alloc),
            session: Vec::new(alloc),
            wanted: String::new(alloc),
        }
    }

    /// The run of this head, without a line yet.
    pub fn begin(&mut self, head: &str) -> Result<(), AllocError> {
        self.head.clear();
        self.session.clear();
        self.wanted.clear();
        self.head.push_str(head)
    }

    pub fn is_headed(&self) -> bool {
        !self.head.is_empty()
    }

    /// Adds a line: one that begins with `= ` to what is wanted, and another one to the session.
    pub fn push_line(&mut self, alloc: Global, line: &str) -> Result<(), AllocError> {
        match line.strip_prefix("= ") {
            Some(line) => write!(self.wanted, "{line}\n"),
            None => push_line(alloc, &mut self.session, line),
        }
    }
}

// Adds a line to a session: `^` stands for a CR, a number between two backquotes for so many times `x`, and `$` at the end for a
// line without LF.
fn push_line(alloc: Global, session: &mut Vec<u8>, line: &str) -> Result<(), AllocError> {
    let (line, end) = match line.strip_suffix('$') {
        Some(line) => (line, ""),
        None => (line, "\n"),
    };
    for (place, part) in line.split('`').enumerate() {
        if place % 2 == 0 {
            push_text(session, part)?;
        } else {
            push_filling(alloc, session, part)?;
        }
    }
    session.extend_from_slice(end.as_bytes())
}

fn push_text(session: &mut Vec<u8>, text: &str) -> Result<(), AllocError> {
    for byte in text.bytes() {
        session.push(if byte == b'^' { b'\r' } else { byte })?;
    }
    Ok(())
}

fn push_filling(alloc: Global, session: &mut Vec<u8>, count: &str) -> Result<(), AllocError> {
    let mut filling = Vec::new(alloc);
    filling.resize(count.parse::<usize>().unwrap_or(0), b'x')?;
    session.extend_from_slice(filling.as_slice())
}
