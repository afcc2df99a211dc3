// What is said of the lines of a list of bans.
use crate::markers::marker;
use crate::words::{first_word, say_texts};
use ban_list::{BanList, Line};
use cache_law::{Ban, BanLine, RequestView};
use http_heads::Fields;
use std::alloc::{AllocError, Global};
use units::{Sequence, Text};

/// The numbers of the lines, the newest first, each with C where it is completed.
pub fn say_lines(bans: &BanList, out: &mut String) -> Result<(), AllocError> {
    if bans.len() == 0 {
        return out.push_str("none");
    }
    for at in 0..bans.len() {
        if at > 0 {
            out.push(' ')?;
        }
        if let Some(line) = bans.line(at) {
            say_line(line, out)?;
        }
    }
    Ok(())
}

fn say_line(line: &Line, out: &mut String) -> Result<(), AllocError> {
    write!(out, "{}{}", line.number(), mark_of(line.is_completed()))
}

fn mark_of(completed: bool) -> &'static str {
    if completed { "C" } else { "" }
}

/// The line that has so many newer ones before it: its number, its moment, what its ban looks at, and the ban's words.
pub fn say_line_at(bans: &BanList, at: &str, out: &mut String) -> Result<(), AllocError> {
    let Some(line) = bans.line(place(at)) else {
        return out.push_str("none");
    };
    let kind = if line.is_object_only() {
        "objects"
    } else {
        "requests"
    };
    write!(out, "{} {} {kind} ", line.number(), line.moment())?;
    say_words(line.ban(), out)
}

fn place(word: &str) -> usize {
    word.parse().unwrap_or(0)
}

fn say_words(ban: &Ban, out: &mut String) -> Result<(), AllocError> {
    out.push('[')?;
    say_texts(out, ban.words.as_slice())?;
    out.push(']')
}

/// The lines as a reply shows them: of each its number, C where it is completed, its moment and its words.
pub fn say_shown(alloc: Global, bans: &BanList, out: &mut String) -> Result<(), AllocError> {
    let shown = bans.shown(alloc)?;
    if shown.as_slice().is_empty() {
        return out.push_str("none");
    }
    for (place, line) in shown.as_slice().iter().enumerate() {
        if place > 0 {
            out.push(' ')?;
        }
        say_shown_line(line, out)?;
    }
    Ok(())
}

fn say_shown_line(line: &BanLine, out: &mut String) -> Result<(), AllocError> {
    let issued = &line.issued;
    write!(
        out,
        "{}{} {} ",
        issued.number,
        mark_of(line.completed),
        issued.moment
    )?;
    say_words(&issued.ban, out)
}

/// Whether the ban of a line matches a marker: `AT STATUS`, and behind that a URL where it is tested with a request.
pub fn say_test(
    alloc: Global,
    bans: &BanList,
    rest: &str,
    out: &mut String,
) -> Result<(), AllocError> {
    let (at, rest) = first_word(rest);
    let (status, url) = first_word(rest);
    let Some(line) = bans.line(place(at)) else {
        return out.push_str("none");
    };
    if matches(alloc, line, status.parse().unwrap_or(0), url)? {
        out.push_str("matched")
    } else {
        out.push_str("not matched")
    }
}

fn matches(alloc: Global, line: &Line, status: u16, url: &str) -> Result<bool, AllocError> {
    let object = marker(alloc, Sequence::new(alloc), status, 0)?;
    if url.is_empty() {
        return line.test(alloc, &object, None);
    }
    let request = RequestView {
        url: Text::of(alloc, url.as_bytes())?,
        fields: Fields::new(alloc),
    };
    line.test(alloc, &object, Some(&request))
}
