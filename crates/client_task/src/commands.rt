// What a subroutine's command asks of the cache.
ghost use Rattle.std.specs.Prelude.{◌≡◌, IfOk, MatchOption, List, ℕ};
ghost use Rattle.client_task.specs.BanWords.{words_of};
ghost use Rattle.client_task.specs.Commands.{IsBan, IsNoBan, SayNone, Asks, AsksNothing, keys_of as keys_in, counted as counts, answer_to as answers};

use crate::Asked;
use crate::ban_words::words_between_blanks;
use ban_expr::{BanError, read};
use cache_law::{Ban, Call, Reply};
use http_heads::{Separators, split_list};
use std::alloc::{AllocError, Global};
use units::{Sequence, Shared, Text};
use vcl_context::{Answer, Command};

// The ban that the words say, if they say one.
fn ban_of_words(alloc: Global, words: &Sequence<Text>) -> Result<Option<Ban>, AllocError>
    ensures { IfOk result (λ found. MatchOption found (SayNone words.now) (λ ban. (text : List ℕ) → words.now ≡ words_of text → IsBan text ban)) }
{
    match read(alloc, words) {
        Ok(ban) => Ok(Some(ban)),
        Err(BanError::NoMemory) => Err(AllocError),
        Err(_) => Ok(None),
    }
}

// The ban that the text is, if it is one.
fn ban_of(alloc: Global, text: &Text) -> Result<Option<Ban>, AllocError>
    ensures { IfOk result (λ found. MatchOption found (IsNoBan text.now) (λ ban. IsBan text.now ban)) }
{
    let words = words_between_blanks(alloc, text.bytes())?;
    ban_of_words(alloc, &words)
}

// The keys of a purge.
fn keys_of(alloc: Global, text: &Text) -> Result<Sequence<Text>, AllocError>
    ensures { IfOk result (λ keys. keys ≡ keys_in text.now) }
{
    split_list(alloc, text.bytes(), Separators::CommasAndBlanks)
}

/// A call that a command asks for.
#[derive(Drop)]
pub(crate) struct Asking {
    pub asked: Asked,
    pub call: Call,
}

fn ask_for_ban(alloc: Global, text: &Text) -> Result<Option<Asking>, AllocError>
    ensures { IfOk result (λ found. MatchOption found (IsNoBan text.now) (λ asking. Asks (Command.Ban text.now) asking.asked asking.call)) }
{
    match ban_of(alloc, text)? {
        Some(ban) => Ok(Some(Asking {
            asked: Asked::Ban,
            call: Call::Ban(Shared::new(alloc, ban)?),
        })),
        None => Ok(None),
    }
}

// The call that a command asks for, if it asks for one.
fn asking_of(alloc: Global, command: &Command) -> Result<Option<Asking>, AllocError>
    ensures { IfOk result (λ found. MatchOption found (AsksNothing command.now) (λ asking. Asks command.now asking.asked asking.call)) }
{
    match command {
        Command::Ban(text) => ask_for_ban(alloc, text),
        Command::Xkey { keys, soft } => Ok(Some(Asking {
            asked: Asked::Xkey,
            call: Call::Xkey {
                keys: keys_of(alloc, keys)?,
                soft: *soft,
            },
        })),
    }
}

/// The call that a command asks for, if it asks for one.
pub(crate) fn take_command(alloc: Global, command: Command) -> Result<Option<Asking>, AllocError>
    ensures { IfOk result (λ found. MatchOption found (AsksNothing command) (λ asking. Asks command asking.asked asking.call)) }
{
    asking_of(alloc, &command)
}

fn counted(count: u64) -> i64
    ensures { result ≡ counts count }
{
    count.min(9_223_372_036_854_775_807) as i64
}

/// What a subroutine is answered to what it asked for, if that is answered.
pub fn answer_to(asked: Asked, reply: &Reply) -> Option<Answer>
    ensures { result ≡ answers asked reply.now }
{
    match (asked, reply) {
        (Asked::Ban, Reply::Banned) => Some(Answer::Done),
        (Asked::Xkey, Reply::Purged(count)) => Some(Answer::Number(counted(*count))),
        _ => None,
    }
}
