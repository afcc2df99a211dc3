// What a line leads to.
ghost use Rattle.std.specs.Prelude.{◌≡◌, ◌≤◌, IfOk, List, ℕ};
ghost use Rattle.console_link.specs.Instructions.{IsFound, LeadsTo};
ghost use Rattle.cli_console.specs.Lines.{IsCommand};
ghost use Rattle.cli_console.specs.declared.command.Command.TheVariants.{Load as LoadFile};

use cache_law::Call;
use cli_console::{CliAnswer, Command, loaded, read_command};
use std::alloc::{AllocError, Global};
use units::Text;
use vmod_host::VmodTable;
use world::{Shelf, ShelfError};

/// What a line leads to.
#[derive(Drop)]
pub enum Instruction {
    /// It makes no call, and this is the whole answer.
    Answer(Text),
    /// The console ends, with this whole answer.
    Quit(Text),
    /// It makes no call, and its answer tells the moment.
    Ping,
    /// It makes this call, and its answer tells the reply.
    Call(Call),
}

// What is found of a file: nothing where it is missing, or the shelf failed.
fn find_file<S: Shelf>(shelf: &mut S, file: &Text) -> Result<Option<Text>, AllocError>
    ensures found { IfOk result (λ found. IsFound (S.files shelf.old) (S.faults shelf.old) (S.faults shelf.new) file.now found) }
    ensures later { S.faults shelf.old ≤ S.faults shelf.new }
    ensures files { S.files shelf.new ≡ S.files shelf.old }
{
    match shelf.read(file) {
        Ok(found) => Ok(found),
        Err(ShelfError::Failed) => Ok(None),
        Err(ShelfError::NoMemory) => Err(AllocError),
    }
}

// What the answer to a line that makes no call leads to.
fn answered(answer: CliAnswer) -> Result<Instruction, AllocError>
    ensures { IfOk result (λ instruction. (text : List ℕ) × (answer ≡ CliAnswer.Refused text) × (instruction ≡ Instruction.Answer text)) }
{
    match answer {
        CliAnswer::Refused(text) => Ok(Instruction::Answer(text)),
        CliAnswer::NoMemory => Err(AllocError),
    }
}

// What a line leads to that is to load a file under a name.
fn instruction_of_file<S: Shelf>(
    alloc: Global,
    line: &Text,
    name: Text,
    file: Text,
    shelf: &mut S,
    vmods: &VmodTable,
) -> Result<Instruction, AllocError>
    requires load { IsCommand vmods.now.stored line.now (LoadFile name file) }
    ensures leads { IfOk result (LeadsTo vmods.now.stored (S.files shelf.old) (S.faults shelf.old) (S.faults shelf.new) line.now) }
    ensures later { S.faults shelf.old ≤ S.faults shelf.new }
    ensures files { S.files shelf.new ≡ S.files shelf.old }
{
    let found = find_file(shelf, &file)?;
    match loaded(alloc, name, &file, found, vmods) {
        Ok(call) => Ok(Instruction::Call(call)),
        Err(answer) => answered(answer),
    }
}

/// What a line leads to, where the file of `vcl.load` is found on the shelf.
pub(crate) fn instruction_of<S: Shelf>(
    alloc: Global,
    line: &Text,
    shelf: &mut S,
    vmods: &VmodTable,
) -> Result<Instruction, AllocError>
    ensures leads { IfOk result (LeadsTo vmods.now.stored (S.files shelf.old) (S.faults shelf.old) (S.faults shelf.new) line.now) }
    ensures later { S.faults shelf.old ≤ S.faults shelf.new }
    ensures files { S.files shelf.new ≡ S.files shelf.old }
{
    let command = match read_command(alloc, line, vmods) {
        Ok(command) => command,
        Err(answer) => return answered(answer),
    };
    match command {
        Command::Ping => Ok(Instruction::Ping),
        Command::Quit(text) => Ok(Instruction::Quit(text)),
        Command::Cache(call) => Ok(Instruction::Call(call)),
        Command::Load { name, file } => {
            instruction_of_file(alloc, line, name, file, shelf, vmods)
        }
    }
}
