// What a line is answered that makes no call.
ghost use Rattle.std.specs.Prelude.{◌≡◌};
ghost use Rattle.cli_console.specs.Refusals.{Tells};

use crate::message::{Message, text_of};
use std::alloc::{AllocError, AllocFailed, Global};
use units::Text;

/// What a line is answered that is no command.
#[derive(Drop, Debug)]
pub enum CliAnswer {
    /// The whole answer.
    Refused(Text),
    NoMemory,
}

impl From<AllocError> for CliAnswer {
    ghost use Rattle.cli_console.specs.declared.refusal.CliAnswer.TheVariants.{NoMemory};

    ghost from_gives = { λ _ answer. answer ≡ NoMemory };

    fn from(_error: AllocError) -> CliAnswer {
        CliAnswer::NoMemory
    }
}

/// The answer that says this.
pub fn refusal(alloc: Global, message: Message) -> CliAnswer
    ensures { Tells message result }
{
    match text_of(alloc, &message) {
        Ok(text) => CliAnswer::Refused(text),
        Err(_) => CliAnswer::NoMemory,
    }
}
