// What one line says.
ghost use Rattle.std.specs.Prelude.{◌≡◌, ◌↔◌, IsTrue, ◌∷◌, ◌++◌, ◌<◌, ◌≤◌, [], Bool, List, ℕ, codes, length, MatchOption};
ghost use Rattle.units.specs.Numbers.{IsNumber};
ghost use Rattle.units.specs.Quoted.{IsQuoted};
ghost use Rattle.session_text.specs.Readings.{IsWord, IsKnown, IsPassed};
ghost use Rattle.session_text.specs.Commands.{IsReadAs};
ghost use Rattle.session_text.specs.Keywords.{health_text, keyword_text};

use crate::MOMENT_LIMIT;
use crate::command::Command;
use crate::session::FaultKind;
use units::{end_of_quoted, read_number};

/// What the text of a line is read as.
#[derive(Clone, Copy)]
pub enum LineReading<'a> {
    /// An empty line or a comment.
    Passed,
    End,
    Says(Command<'a>),
    Bad(FaultKind),
}

/// Reads the text of one line.
pub fn read_line(text: &[u8]) -> LineReading<'_>
    ensures { IsReadAs text.now result }
{
    if is_passed(text) {
        return LineReading::Passed;
    }
    let Some((word, argument)) = cut_word(text) else {
        return read_word(text);
    };
    let Some(keyword) = keyword_of(word) else {
        return LineReading::Bad(FaultKind::Unknown);
    };
    read_command(keyword, argument)
}

fn is_passed(text: &[u8]) -> bool
    ensures { IsTrue result ↔ IsPassed text.now }
{
    match text {
        [] => true,
        [first, ..] => *first == b'#',
    }
}

// The first word of a text, and what is behind the blank that ends it. None where there is no blank.
fn cut_word(text: &[u8]) -> Option<(&[u8], &[u8])>
    ensures { MatchOption result (IsWord text.now) (λ cut. IsWord cut.0.now × (text.now ≡ cut.0.now ++ 32 ∷ cut.1.now)) }
{
    for (place, byte) in text.iter().enumerate() {
        if *byte == b' ' {
            return Some((&text[..place], &text[place + 1..]));
        }
    }
    None
}

/// The words that a line may begin with.
#[derive(Clone, Copy)]
pub enum Keyword {
    At,
    Req,
    Reply,
    Fail,
    Cli,
    Lurk,
    Probe,
    End,
}

fn keyword_of(word: &[u8]) -> Option<Keyword>
    ensures { MatchOption result (IsKnown word.now → ⊥) (λ keyword. word.now ≡ keyword_text keyword) }
{
    match word {
        b"at" => Some(Keyword::At),
        b"req" => Some(Keyword::Req),
        b"reply" => Some(Keyword::Reply),
        b"fail" => Some(Keyword::Fail),
        b"cli" => Some(Keyword::Cli),
        b"lurk" => Some(Keyword::Lurk),
        b"probe" => Some(Keyword::Probe),
        b"end" => Some(Keyword::End),
        _ => None,
    }
}

// A line that is one word.
fn read_word(word: &[u8]) -> LineReading<'static>
    requires word { IsWord word.now }
    requires some { IsPassed word.now → ⊥ }
    ensures { IsReadAs word.now result }
{
    match keyword_of(word) {
        Some(keyword) => read_alone(keyword),
        None => LineReading::Bad(FaultKind::Unknown),
    }
}

fn read_alone(keyword: Keyword) -> LineReading<'static>
    ensures { IsReadAs (keyword_text keyword) result }
{
    match keyword {
        Keyword::End => LineReading::End,
        _ => LineReading::Bad(FaultKind::Argument),
    }
}

// A line with a word that is known and something behind it.
fn read_command(keyword: Keyword, argument: &[u8]) -> LineReading<'_>
    ensures { IsReadAs (keyword_text keyword ++ 32 ∷ argument.now) result }
{
    match keyword {
        Keyword::At => read_at(argument),
        Keyword::Req => read_req(argument),
        Keyword::Reply => read_reply(argument),
        Keyword::Fail => read_fail(argument),
        Keyword::Cli => LineReading::Says(Command::Cli(argument)),
        Keyword::Lurk => read_lurk(argument),
        Keyword::Probe => read_probe(argument),
        Keyword::End => LineReading::Bad(FaultKind::Argument),
    }
}

fn read_at(argument: &[u8]) -> LineReading<'static>
    ensures { IsReadAs (codes "at" ++ 32 ∷ argument.now) result }
{
    let Some(moment) = read_number(argument) else {
        return LineReading::Bad(FaultKind::Argument);
    };
    if moment > MOMENT_LIMIT {
        return LineReading::Bad(FaultKind::Argument);
    }
    LineReading::Says(Command::At(moment))
}

fn read_fail(argument: &[u8]) -> LineReading<'static>
    ensures { IsReadAs (codes "fail" ++ 32 ∷ argument.now) result }
{
    match read_number(argument) {
        Some(fetch) => LineReading::Says(Command::Fail(fetch)),
        None => LineReading::Bad(FaultKind::Argument),
    }
}

fn read_lurk(argument: &[u8]) -> LineReading<'static>
    ensures { IsReadAs (codes "lurk" ++ 32 ∷ argument.now) result }
{
    let Some(count) = read_number(argument) else {
        return LineReading::Bad(FaultKind::Argument);
    };
    if count > 0xffff_ffff {
        return LineReading::Bad(FaultKind::Argument);
    }
    LineReading::Says(Command::Lurk(count as u32))
}

fn read_probe(argument: &[u8]) -> LineReading<'_>
    ensures { IsReadAs (codes "probe" ++ 32 ∷ argument.now) result }
{
    let Some((backend, health)) = cut_word(argument) else {
        return LineReading::Bad(FaultKind::Argument);
    };
    if backend.is_empty() {
        return LineReading::Bad(FaultKind::Argument);
    }
    match health_of(health) {
        Some(good) => LineReading::Says(Command::Probe { backend, good }),
        None => LineReading::Bad(FaultKind::Argument),
    }
}

// Whether a probe was good, by its word.
fn health_of(word: &[u8]) -> Option<bool>
    ensures { MatchOption result ((good : Bool) → word.now ≡ health_text good → ⊥) (λ good. word.now ≡ health_text good) }
{
    match word {
        b"good" => Some(true),
        b"bad" => Some(false),
        _ => None,
    }
}

fn read_req(argument: &[u8]) -> LineReading<'_>
    ensures { IsReadAs (codes "req" ++ 32 ∷ argument.now) result }
{
    let Some((number, quoted)) = cut_word(argument) else {
        return LineReading::Bad(FaultKind::Argument);
    };
    if !is_quoted(quoted) {
        return LineReading::Bad(FaultKind::Word);
    }
    let Some(client) = client_of(number) else {
        return LineReading::Bad(FaultKind::Argument);
    };
    if is_empty_text(quoted) {
        return LineReading::Bad(FaultKind::Argument);
    }
    LineReading::Says(Command::Req { client, quoted })
}

fn read_reply(argument: &[u8]) -> LineReading<'_>
    ensures { IsReadAs (codes "reply" ++ 32 ∷ argument.now) result }
{
    let Some((number, quoted)) = cut_word(argument) else {
        return LineReading::Bad(FaultKind::Argument);
    };
    if !is_quoted(quoted) {
        return LineReading::Bad(FaultKind::Word);
    }
    match read_number(number) {
        Some(fetch) => LineReading::Says(Command::Reply { fetch, quoted }),
        None => LineReading::Bad(FaultKind::Argument),
    }
}

// A client's number: 1 to 250.
fn client_of(number: &[u8]) -> Option<u32>
    ensures { MatchOption result
        ((client : ℕ) → IsNumber number.now client → 0 < client → client ≤ 250 → ⊥)
        (λ client. IsNumber number.now client × (0 < client) × (client ≤ 250)) }
{
    let Some(client) = read_number(number) else {
        return None;
    };
    if client == 0 {
        return None;
    }
    if client > 250 {
        return None;
    }
    Some(client as u32)
}

// Whether the bytes are a quoted text, from their first to their last.
fn is_quoted(bytes: &[u8]) -> bool
    ensures { IsTrue result ↔ ((values : List ℕ) × IsQuoted values bytes.now []) }
{
    match end_of_quoted(bytes, 0) {
        Some(behind) => behind == bytes.len(),
        None => false,
    }
}

// Whether a quoted text stands for no bytes.
fn is_empty_text(quoted: &[u8]) -> bool
    ensures { IsTrue result ↔ (quoted.now ≡ codes "\"\"") }
{
    quoted == b"\"\"".as_slice()
}
