// Reading a whole session.
ghost use Rattle.std.specs.Prelude.{◌≡◌, ◌+◌, ◌<◌, ◌≤◌, ℕ, List, IfOk, IfErr, MatchResult, Err};
ghost use Rattle.session_text.specs.declared.session.Session.{Session as TheSession};
ghost use Rattle.session_text.specs.declared.session.FaultKind.{FaultKind as Kind};
ghost use Rattle.session_text.specs.Lines.{size, text_line};
ghost use Rattle.session_text.specs.declared.session.NumberedLine.{NumberedLine};
ghost use Rattle.session_text.specs.Sessions.{IsSession, IsFault, IsStep, On, Stop, session_limit};
ghost use Rattle.session_text.specs.Errors.{IsErrorOf};

use crate::command::line_of;
use crate::lines::{NextLine, next_line};
use crate::place::{Place, Turn, take_line};
use crate::session::{FaultKind, NumberedLine, Session, SessionError};
use std::alloc::{AllocError, Global};
use units::Sequence;

/// The session that the bytes are.
///
/// Lines end with LF, which a last line that isn't empty may lack; a CR before an LF is dropped. Empty lines and
/// lines that begin with `#` are passed over. The others are `at MOMENT`, `req CLIENT "TEXT"`, `reply FETCH "TEXT"`,
/// `fail FETCH`, `cli REST`, `lurk COUNT` and, as the last, `end`, with one blank between words. A session has at
/// most 67,108,864 bytes. `Refused` names the first line without a meaning, from 1 on, and the least kind of
/// fault there; a missing `end` is told at the line behind the last one. The work grows with the bytes.
pub fn read(alloc: Global, bytes: &[u8]) -> Result<Session, SessionError>
    // What is read is the session that the bytes are.
    ensures session { IfOk result (λ read. IsSession bytes.now read) }
    // A refusal is the fault that the bytes have, and memory is wanting only if they are a session.
    ensures error { IfErr result (λ error. IsErrorOf bytes.now error) }
    // A session is read, unless memory runs out.
    ensures only_session { (s : TheSession) → IsSession bytes.now s → MatchResult result (λ read. read ≡ s) (λ error. error ≡ SessionError.NoMemory) }
    // A fault is told, whatever memory there is.
    ensures only_fault { (line : ℕ) (kind : Kind) → IsFault bytes.now line kind → result ≡ Err (SessionError.Refused line kind) }
{
    read_lines(alloc, bytes)
}

fn read_lines(alloc: Global, bytes: &[u8]) -> Result<Session, SessionError>
    ensures session { IfOk result (λ read. IsSession bytes.now read) }
    ensures error { IfErr result (λ error. IsErrorOf bytes.now error) }
{
    match find_end(bytes) {
        Ok(end) => match made_lines(alloc, bytes) {
            Ok(lines) => Ok(Session { lines, end }),
            Err(error) => Err(SessionError::from(error)),
        },
        Err(fault) => Err(SessionError::Refused {
            line: fault.line,
            kind: fault.kind,
        }),
    }
}

// The first line without a meaning, and the least kind of fault there.
#[derive(Clone, Copy)]
struct Fault {
    line: u32,
    kind: FaultKind,
}

// The line of a session's `end`, or the fault of a text that is none.
fn find_end(bytes: &[u8]) -> Result<u32, Fault>
    ensures { MatchResult result
        (λ end. (session : TheSession) × IsSession bytes.now session × (session.end ≡ end))
        (λ fault. IsFault bytes.now fault.line fault.kind) }
{
    let mut place = Place::first();
    let mut rest = bytes;
    'lines: while let Some(next) = next_line(rest) {
        match next_place(place, next) {
            Ok(after) => {
                place = after;
                rest = next.rest;
            }
            Err(kind) => {
                return Err(Fault {
                    line: place.number,
                    kind,
                });
            }
        }
    }
    match place.end {
        Some(end) => Ok(end),
        None => Err(Fault {
            line: place.number,
            kind: FaultKind::NoEnd,
        }),
    }
}

// The place behind a line.
fn next_place(place: Place, next: NextLine<'_>) -> Result<Place, FaultKind>
    requires some { 0 < size (text_line next.body.now next.ended) }
    requires small { place.number + place.room ≤ session_limit + 1 }
    ensures step { MatchResult result
        (λ after. (given : List NumberedLine) × IsStep place (text_line next.entry.body.now next.entry.ended) (On given after))
        (λ kind. IsStep place (text_line next.entry.body.now next.entry.ended) (Stop kind)) }
    ensures small { IfOk result (λ after. after.number + after.room ≤ session_limit + 1) }
{
    match take_line(place, next) {
        Turn::Passes(after) => Ok(after),
        Turn::Gives(_, _, after) => Ok(after),
        Turn::Stops(kind) => Err(kind),
    }
}

// The lines of a text that is a session.
fn made_lines(alloc: Global, bytes: &[u8]) -> Result<Sequence<NumberedLine>, AllocError>
    requires { (session : TheSession) × IsSession bytes.now session }
    ensures { IfOk result (λ lines. (session : TheSession) → IsSession bytes.now session → lines ≡ session.lines) }
{
    let mut lines = Sequence::new(alloc);
    let mut place = Place::first();
    let mut rest = bytes;
    'lines: while let Some(next) = next_line(rest) {
        match take_line(place, next) {
            Turn::Passes(after) => {
                place = after;
                rest = next.rest;
            }
            Turn::Gives(number, command, after) => {
                let line = line_of(alloc, command)?;
                lines.push(NumberedLine { number, line })?;
                place = after;
                rest = next.rest;
            }
            Turn::Stops(_) => unreachable!(),
        }
    }
    Ok(lines)
}
