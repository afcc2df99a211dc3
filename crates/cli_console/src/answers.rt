// The answers to calls.
ghost use Rattle.std.specs.Prelude.{◌≡◌, IfOk, IsSome, Some, ℕ, List};
ghost use Rattle.cli_console.specs.Answers.{name_in, message_to, IsAnswer};
ghost use Rattle.cli_console.specs.Messages.{answer_text, said};

use crate::listings::{write_bans, write_vcls};
use crate::message::{Message, text_of};
use cache_law::{Call, Reply};
use std::alloc::{AllocError, Global};
use units::Text;

/// The answer to a call of the console that has this reply. Each reply that the law of the cache gives to such a call has an
/// answer (`console_calls_are_answered`).
pub fn answer(alloc: Global, call: &Call, reply: &Reply) -> Result<Text, AllocError>
    requires { IsSome (message_to (name_in call.now) reply.now) }
    ensures { IfOk result (λ text. IsAnswer call.now reply.now text) }
{
    let message = message_to(alloc, call, reply)?;
    text_of(alloc, &message)
}

/// The answer to `ping`, at this moment in milliseconds since 1970.
pub fn pong(alloc: Global, moment: u64) -> Result<Text, AllocError>
    ensures { IfOk result (λ text. text ≡ answer_text (said (Message.Pong moment))) }
{
    text_of(alloc, &Message::Pong(moment))
}

fn message_to(alloc: Global, call: &Call, reply: &Reply) -> Result<Message, AllocError>
    requires { IsSome (message_to (name_in call.now) reply.now) }
    ensures { IfOk result (λ message. message_to (name_in call.now) reply.now ≡ Some message) }
{
    match reply {
        Reply::Banned => Ok(Message::Done),
        Reply::Bans(lines) => Ok(Message::Listing(write_bans(alloc, lines.as_slice())?)),
        Reply::HealthSet(true) => Ok(Message::Done),
        Reply::HealthSet(false) => Ok(Message::NoBackend(name_in(alloc, call)?)),
        Reply::Loaded(_) => Ok(Message::Compiled),
        Reply::NameTaken => Ok(Message::NameTaken(name_in(alloc, call)?)),
        Reply::Switched => Ok(Message::NowActive(name_in(alloc, call)?)),
        Reply::NoVcl => Ok(Message::NoVcl(name_in(alloc, call)?)),
        Reply::Discarded => Ok(Message::Done),
        Reply::IsActive => Ok(Message::IsActive(name_in(alloc, call)?)),
        Reply::Vcls(lines) => Ok(Message::Listing(write_vcls(alloc, lines.as_slice())?)),
        _ => unreachable!(),
    }
}

// The name that a call has.
fn name_in(alloc: Global, call: &Call) -> Result<Text, AllocError>
    ensures { IfOk result (λ name. name ≡ name_in call.now) }
{
    match call {
        Call::SetHealth { backend, .. } => backend.copy(),
        Call::Load(source) => source.name.copy(),
        Call::Switch { name } => name.copy(),
        Call::Discard { name } => name.copy(),
        _ => Text::of(alloc, b""),
    }
}
