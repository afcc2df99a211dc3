// The limits of a replay, as clap reads them from words that ask for one.
ghost use Rattle.std.specs.Prelude.{◌≡◌, ℕ, List, Option, map, option_map, All, IfOk, IsUtf8};
ghost use Rattle.cache_law.specs.declared.setting.Params.{Params as Limits};
ghost use Rattle.varn_program.specs.Texts.{AreTexts, IsValue};
ghost use Rattle.varn_program.specs.Words.{usual, AsksReplay};

use cache_law::Params;
use clap::{Arg, Command};
use std::alloc::{AllocError, Global};
use units::{Text, read_number};

// The words as texts.
fn texts_of<'a>(alloc: Global, words: &'a [Text]) -> Result<Vec<&'a str>, AllocError>
    requires { All IsUtf8 words.now }
    ensures { IfOk result (λ texts. map (λ s. s.now) texts.items ≡ words.now) }
{
    let mut texts: Vec<&'a str> = Vec::new(alloc);
    for word in words {
        match str::from_utf8(word.bytes()) {
            Ok(text) => texts.push(text)?,
            Err(_) => unreachable!(),
        }
    }
    Ok(texts)
}

// The number that an option's text writes; where the option isn't given, the usual one.
fn number_or(text: Option<&str>, otherwise: u64) -> u64
    requires { otherwise ≡ usual }
    ensures { (number : ℕ) → IsValue (option_map (λ s. s.now) text.entry) number → result ≡ number }
{
    match text {
        Some(text) => match read_number(text.as_bytes()) {
            Some(number) => number,
            None => otherwise,
        },
        None => otherwise,
    }
}

// The limits that clap reads. It refuses no words that the grammar takes, so where it fails memory is wanting.
fn read_texts<'a>(alloc: Global, words: &'a [&'a str]) -> Result<Params, AllocError>
    ensures { IfOk result (λ read. (room history : Option (List ℕ)) (params : Limits) → AreTexts (map (λ s. s.now) words.now) room history params → read ≡ params) }
{
    let room = Arg::new(alloc, "room").long("room");
    let history = Arg::new(alloc, "history").long("history");
    let command = Command::new(alloc, "replay").arg(room)?.arg(history)?;
    match command.try_get_matches_from(words) {
        Ok(matches) => Ok(Params {
            room: number_or(matches.get_str("room"), Params::DEFAULT_ROOM),
            history: number_or(matches.get_str("history"), Params::DEFAULT_HISTORY),
            segments: false,
        }),
        Err(_) => Err(AllocError),
    }
}

/// The limits of the replay that the words ask for.
pub(crate) fn read_limits(alloc: Global, words: &[Text]) -> Result<Params, AllocError>
    requires { (params : Limits) × AsksReplay words.now params }
    ensures { IfOk result (AsksReplay words.now) }
{
    let texts = texts_of(alloc, words)?;
    read_texts(alloc, texts.as_slice())
}
