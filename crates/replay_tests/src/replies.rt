// The answers to a call that names `boot` where that is active, and `v` else.
ghost use Rattle.std.specs.Prelude.{IfOk, IsSome};
ghost use Rattle.cli_console.specs.Answers.{message_to, name_in};

use crate::listings::{ban_lines, vcl_lines};
use cache_law::{Call, Reply};
use cli_console::answer;
use std::alloc::{AllocError, Global};
use units::{Sequence, Text};

/// The answer to the reply of this name.
pub fn reply_shown(alloc: Global, row: &str) -> Result<String, AllocError> {
    let name = if row == "is active" { "boot" } else { "v" };
    let call = Call::Discard {
        name: Text::of(alloc, name.as_bytes())?,
    };
    let reply = reply_of(alloc, &call, row)?;
    let text = answer(alloc, &call, &reply)?;
    format!(in alloc; "{text:?}")
}

fn reply_of(alloc: Global, call: &Call, row: &str) -> Result<Reply, AllocError>
    ensures { IfOk result (λ reply. IsSome (message_to (name_in call.now) reply)) }
{
    match row {
        "banned" => Ok(Reply::Banned),
        "discarded" => Ok(Reply::Discarded),
        "health set" => Ok(Reply::HealthSet(true)),
        "health not set" => Ok(Reply::HealthSet(false)),
        "loaded" => Ok(Reply::Loaded(2)),
        "name taken" => Ok(Reply::NameTaken),
        "switched" => Ok(Reply::Switched),
        "no vcl" => Ok(Reply::NoVcl),
        "is active" => Ok(Reply::IsActive),
        "no bans" => Ok(Reply::Bans(Sequence::new(alloc))),
        "bans" => Ok(Reply::Bans(ban_lines(alloc)?)),
        _ => Ok(Reply::Vcls(vcl_lines(alloc)?)),
    }
}
