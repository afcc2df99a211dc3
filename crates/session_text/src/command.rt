// A line whose text isn't made yet.
ghost use Rattle.std.specs.Prelude.{◌≡◌, [], List, ℕ, IfOk};
ghost use Rattle.units.specs.Quoted.{IsQuoted};
ghost use Rattle.session_text.specs.declared.session.Line.{Line as TheLine};
ghost use Rattle.session_text.specs.Commands.{IsLineOf};

use crate::session::Line;
use std::alloc::{AllocError, Global};
use units::{Text, quoted};

/// What a line says, with its text as it is written.
#[derive(Clone, Copy)]
pub enum Command<'a> {
    At(u64),
    Req { client: u32, quoted: &'a [u8] },
    Reply { fetch: u64, quoted: &'a [u8] },
    Fail(u64),
    Cli(&'a [u8]),
    Lurk(u32),
    Probe { backend: &'a [u8], good: bool },
}

/// The line of a command.
pub fn line_of(alloc: Global, command: Command<'_>) -> Result<Line, AllocError>
    requires { (line : TheLine) × IsLineOf command line }
    ensures { IfOk result (IsLineOf command.entry) }
{
    match command {
        Command::At(moment) => Ok(Line::At(moment)),
        Command::Req { client, quoted } => {
            let text = unquoted(alloc, quoted)?;
            Ok(Line::Req { client, text })
        }
        Command::Reply { fetch, quoted } => {
            let text = unquoted(alloc, quoted)?;
            Ok(Line::Reply { fetch, text })
        }
        Command::Fail(fetch) => Ok(Line::Fail(fetch)),
        Command::Cli(rest) => {
            let text = Text::of(alloc, rest)?;
            Ok(Line::Cli(text))
        }
        Command::Lurk(count) => Ok(Line::Lurk(count)),
        Command::Probe { backend, good } => {
            let backend = Text::of(alloc, backend)?;
            Ok(Line::Probe { backend, good })
        }
    }
}

// What a quoted text stands for that the bytes are, from their first to their last.
fn unquoted(alloc: Global, bytes: &[u8]) -> Result<Text, AllocError>
    requires { (values : List ℕ) × IsQuoted values bytes.now [] }
    ensures { IfOk result (λ text. IsQuoted text bytes.now []) }
{
    let found = quoted(alloc, bytes, 0)?;
    let Some((text, _)) = found else {
        unreachable!();
    };
    Ok(text)
}
