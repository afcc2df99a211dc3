// What a line says.
ghost use Rattle.std.specs.Prelude.{◌≡◌, IfOk, IfErr};
ghost use Rattle.cli_console.specs.Refusals.{TellsWhy};
ghost use Rattle.cli_console.specs.Lines.{IsCommand, IsWrong, IsLoaded, IsNotLoaded, IsLoadOf};
ghost use Rattle.cli_console.specs.Sources.{IsTextRefused};

use crate::message::{Message, text_of};
use crate::orders::{Order, read_order};
use crate::refusal::{CliAnswer, refusal};
use crate::sources::source_of;
use cache_law::Call;
use std::alloc::Global;
use units::{Shared, Text};
use vmod_host::VmodTable;

/// What a line says.
#[derive(Drop)]
pub enum Command {
    /// It is answered by `pong`.
    Ping,
    /// The console ends, with this whole answer.
    Quit(Text),
    /// A call of the cache, whose reply is answered by `answer`.
    Cache(Call),
    /// The VCL in the file is to be loaded under the name: what is found is handed to `loaded`.
    Load { name: Text, file: Text },
}

/// The command that a line is, or the answer that says why it is none, in this order: it has no words (100), names no
/// command (101), has too few words for it (104) or too many (105), or is wrong in what the command asks of its words
/// (106). Texts of VCLs are checked with the stored functions of a table.
pub fn read_command(alloc: Global, line: &Text, vmods: &VmodTable) -> Result<Command, CliAnswer>
    ensures command { IfOk result (λ command. IsCommand vmods.now.stored line.now command) }
    ensures refused { IfErr result (λ answer. TellsWhy (IsWrong vmods.now.stored line.now) answer) }
{
    match read_order(alloc, line) {
        Ok(order) => command_of(alloc, order, vmods),
        Err(answer) => Err(answer),
    }
}

fn command_of(alloc: Global, order: Order, vmods: &VmodTable) -> Result<Command, CliAnswer>
    ensures command { IfOk result (λ command. Carries vmods.now.stored order command) }
    ensures refused { IfErr result (λ answer. TellsWhy (IsTextWrong vmods.now.stored order) answer) }
{
    match order {
        Order::Ping => Ok(Command::Ping),
        Order::Quit => Ok(Command::Quit(text_of(alloc, &Message::Closing)?)),
        Order::Cache(call) => Ok(Command::Cache(call)),
        Order::Inline { name, text } => match load(alloc, name, text, vmods) {
            Ok(call) => Ok(Command::Cache(call)),
            Err(answer) => Err(answer),
        },
        Order::Load { name, file } => Ok(Command::Load { name, file }),
    }
}

ghost use Rattle.cli_console.specs.Lines.{Carries, IsTextWrong};

// The call that loads the VCL of a text.
fn load(alloc: Global, name: Text, text: Text, vmods: &VmodTable) -> Result<Call, CliAnswer>
    ensures call { IfOk result (λ call. IsLoadOf vmods.now.stored name text call) }
    ensures refused { IfErr result (λ answer. TellsWhy (IsTextRefused vmods.now.stored text) answer) }
{
    match source_of(alloc, name, text, vmods) {
        Ok(source) => Ok(Call::Load(Shared::new(alloc, source)?)),
        Err(answer) => Err(answer),
    }
}

/// The call that loads the VCL in a file under a name, given what was found in the file, or the answer that says why
/// there is none: nothing was found (300), or the text is refused (106).
pub fn loaded(
    alloc: Global,
    name: Text,
    file: &Text,
    found: Option<Text>,
    vmods: &VmodTable,
) -> Result<Call, CliAnswer>
    ensures call { IfOk result (λ call. IsLoaded vmods.now.stored name found call) }
    ensures refused { IfErr result (λ answer. TellsWhy (IsNotLoaded vmods.now.stored file.now found) answer) }
{
    match found {
        None => Err(refusal(alloc, Message::CannotRead(file.copy()?))),
        Some(text) => load(alloc, name, text, vmods),
    }
}
