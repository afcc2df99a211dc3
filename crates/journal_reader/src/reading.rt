// Reading the text of a line.
ghost use Rattle.std.specs.Prelude.{◌≡◌, ◌≢◌, ◌++◌, ◌∷◌, [], List, ℕ, length, slice_index, IfOk, IfErr, MatchResult, MatchOption, Ok, Err};
ghost use Rattle.ban_expr.specs.declared.error.BanError.TheVariants.{NoMemory};
ghost use Rattle.ban_expr.specs.Reading.{Reads, IsRefusal as IsRefusedBan};
ghost use Rattle.journal_text.specs.declared.line.Line.{Line as JournalLine};
ghost use Rattle.journal_text.specs.declared.word.Word.{Word as JournalWord};
ghost use Rattle.journal_text.specs.Words.{AreWords};
ghost use Rattle.journal_text.specs.Grammar.{line_words};
ghost use Rattle.journal_text.specs.Journals.{IsLine, IsReadBan, text_of};
ghost use Rattle.journal_reader.specs.declared.fault.ReadError.TheVariants as errors;
ghost use Rattle.journal_reader.specs.Reading.{bare_call, line_at};
ghost use Rattle.journal_reader.specs.Refusals.{IsBanFault, IsErrorOf, IsFoundBy, IsNoBan, IsNoBanCall, IsParting, IsReadAs, Parts, Tells, agreed as agreed_by, no_ban};

use crate::cursor::Cursor;
use crate::fault::{Fault, Halt, ReadError, Refusal};
use crate::front::{Front, front_of};
use crate::lines::line;
use ban_expr::{BanError, read};
use cache_law::{Ban, Call};
use journal_text::{Line, Said, push_line};
use std::alloc::{AllocError, Global};
use units::Shared;

fn column_at(columns: &[usize], place: usize) -> usize
    ensures { result ≡ slice_index columns.now place }
{
    columns.get(place).copied().unwrap_or(0)
}

// The line that the words of a text say, its ban without conditions.
fn bare_line(alloc: Global, front: &Front) -> Result<Line, ReadError>
    ensures { IsFoundBy front.now.words.items front.now.columns.items result }
{
    let mut cursor = Cursor::new(front.words.as_slice());
    match line(&mut cursor, alloc) {
        Ok(line) => Ok(line),
        Err(Halt::NoMemory) => Err(ReadError::NoMemory),
        Err(Halt::Stopped(stop)) => {
            let place = front.words.len().saturating_sub(stop.left);
            Err(ReadError::Refused(Refusal {
                column: column_at(front.columns.as_slice(), place),
                fault: Fault::Expected(stop.wanted),
            }))
        }
    }
}

fn ban_error(error: BanError, column: usize) -> ReadError
    ensures { result ≡ no_ban error column }
{
    match error {
        BanError::NoMemory => ReadError::NoMemory,
        _ => ReadError::Refused(Refusal {
            column,
            fault: Fault::NoBan(error),
        }),
    }
}

// The ban that words say.
fn read_ban(alloc: Global, bare: &Ban, column: usize) -> Result<Shared<Ban>, ReadError>
    ensures { MatchResult result (λ ban. Reads bare.now.words ban.conditions × (ban.words ≡ bare.now.words)) (λ error. IsBanFault (λ cause. IsRefusedBan bare.now.words cause × (cause ≢ NoMemory)) column error) }
{
    match read(alloc, &bare.words) {
        Ok(ban) => Ok(Shared::new(alloc, ban)?),
        Err(error) => Err(ban_error(error, column)),
    }
}

// A call, with the conditions that the words of its ban say.
fn read_call(alloc: Global, call: Call, column: usize) -> Result<Call, ReadError>
    ensures { MatchResult result (λ read. IsReadBan read × (bare_call read ≡ bare_call call)) (λ error. IsBanFault (IsNoBanCall call) column error) }
{
    match call {
        Call::Ban(bare) => Ok(Call::Ban(read_ban(alloc, &bare, column)?)),
        call => Ok(call),
    }
}

// A line, with the conditions that the words of its ban say.
fn read_bans(alloc: Global, line: Line, column: usize) -> Result<Line, ReadError>
    ensures { MatchResult result (λ read. IsReadAs line read) (λ error. IsBanFault (IsNoBan line) column error) }
{
    match line {
        Line::Entry(said) => {
            let Said {
                caller,
                moment,
                call,
                reply,
            } = said;
            let call = read_call(alloc, call, column)?;
            Ok(Line::Entry(Said {
                caller,
                moment,
                call,
                reply,
            }))
        }
        line => Ok(line),
    }
}

// Whether both texts have a place, and the same byte there.
#[tactic(auto, using(crate::proofs::Agreeing::tell_text_end, crate::proofs::Agreeing::tell_other_end, crate::proofs::Agreeing::tell_bytes))]
fn is_same_at(text: &[u8], other: &[u8], place: usize) -> bool
    ensures { Tells text.now other.now place result }
{
    if place >= text.len() {
        return false;
    }
    if place >= other.len() {
        return false;
    }
    text[place] == other[place]
}

// How many bytes two texts have in common from their beginning on.
#[tactic(auto, using(crate::proofs::Agreeing::agree_begins, crate::proofs::Agreeing::agree_on, crate::proofs::Agreeing::agree_stops))]
fn agreed(text: &[u8], other: &[u8]) -> usize
    ensures { result ≡ agreed_by text.now other.now }
{
    let mut count = 0;
    'bytes: while is_same_at(text, other, count) {
        count += 1;
    }
    count
}

// Where a text and a line part, if they do.
#[tactic(auto, using(crate::proofs::Agreeing::agreed_within, crate::proofs::Agreeing::agreed_whole))]
fn parting(text: &[u8], written: &[u8]) -> Option<Refusal>
    ensures { MatchOption result (text.now ≡ written.now) (λ refusal. Parts text.now written.now refusal.fault refusal.column) }
{
    let count = agreed(text, written);
    let fault = if count < written.len() {
        Fault::Otherwise
    } else if count < text.len() {
        Fault::Longer
    } else {
        return None;
    };
    Some(Refusal {
        column: count + 1,
        fault,
    })
}

// The text of a line.
fn written(alloc: Global, line: &Line) -> Result<Vec<u8>, AllocError>
    ensures text { IfOk result (λ text. text.items ≡ text_of line.now ++ 10 ∷ []) }
    ensures within { IfOk result (λ text. AreWords (line_words line.now)) }
{
    let mut text = Vec::new(alloc);
    push_line(&mut text, alloc, line)?;
    Ok(text)
}

// Whether the text is that of the line.
fn compare(alloc: Global, text: &[u8], line: &Line) -> Result<(), ReadError>
    ensures { MatchResult result (λ same. AreWords (line_words line.now) × (text.now ≡ text_of line.now)) (λ error. IsParting text.now (text_of line.now) error) }
{
    let written = written(alloc, line)?;
    match parting(text, &written[..written.len() - 1]) {
        None => Ok(()),
        Some(refusal) => Err(ReadError::Refused(refusal)),
    }
}

// The error, behind a line that is let go.
fn let_go<V: Drop>(_held: V, error: ReadError) -> ReadError
    ensures { result ≡ error }
{
    error
}

fn read_words(alloc: Global, text: &[u8]) -> Result<Line, ReadError>
    ensures { MatchResult result (λ read. IsLine text.now read) (λ error. IsErrorOf text.now error) }
{
    let front = front_of(alloc, text)?;
    let bare = bare_line(alloc, &front)?;
    let line = read_bans(alloc, bare, column_at(front.columns.as_slice(), 4))?;
    match compare(alloc, text, &line) {
        Ok(()) => Ok(line),
        Err(error) => Err(let_go(line, error)),
    }
}

/// The line that a text without its LF is, or the fault for which it is none.
pub fn read_line(alloc: Global, text: &[u8]) -> Result<Line, ReadError>
    // What is read is the line whose text this is.
    ensures line { IfOk result (λ line. IsLine text.now line) }
    // A text is refused for the fault that it has.
    ensures refused { IfErr result (λ error. IsErrorOf text.now error) }
    // A line's text is read as that line, unless memory runs out.
    ensures only { (line : JournalLine) → IsLine text.now line → MatchResult result (λ read. read ≡ line) (λ error. error ≡ errors.NoMemory) }
{
    read_words(alloc, text)
}
