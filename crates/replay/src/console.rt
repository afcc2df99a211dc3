// The console in a session.
ghost use Rattle.std.specs.Prelude.{◌≡◌, ◌↔◌, IfOk, IsSome, IsTrue, List, ℕ};
ghost use Rattle.cli_console.specs.Answers.{is_console, message_to, name_in};
ghost use Rattle.replay.specs.Console.{LeadsTo, console_want, reply_want, said_want, start_want};

use crate::{Given, Want};
use cache_law::{Call, Reply};
use cli_console::{CliAnswer, Command, answer, loaded, pong, read_command};
use std::alloc::{AllocError, Global};
use units::{Copied, Text};
use vmod_host::VmodTable;

/// What a line of the console leads to.
#[derive(Drop)]
pub enum Instruction {
    /// It makes no call, and this is the whole answer.
    Answer(Text),
    /// It makes no call, and its answer tells the moment.
    Ping,
    /// It makes this call, and its answer tells the reply.
    Call(Call),
}

// The same call again, its large parts shared.
fn copy_call(alloc: Global, call: &Call) -> Result<Call, AllocError>
    ensures { IfOk result (λ same. same ≡ call.now) }
{
    match call {
        Call::Begin => Ok(Call::Begin),
        Call::Draw => Ok(Call::Draw),
        Call::Lookup(query) => Ok(Call::Lookup(query.copy()?)),
        Call::Pick { vcl, target, word } => Ok(Call::Pick {
            vcl: *vcl,
            target: target.copy()?,
            word: *word,
        }),
        Call::Insert {
            token,
            object,
            stale,
        } => Ok(Call::Insert {
            token: *token,
            object: object.copy()?,
            stale: *stale,
        }),
        Call::Ban(ban) => Ok(Call::Ban(ban.copy()?)),
        Call::BanList => Ok(Call::BanList),
        Call::Purge { key } => Ok(Call::Purge {
            key: key.copied(alloc)?,
        }),
        Call::Xkey { keys, soft } => Ok(Call::Xkey {
            keys: keys.copied(alloc)?,
            soft: *soft,
        }),
        Call::SetHealth { backend, health } => Ok(Call::SetHealth {
            backend: backend.copy()?,
            health: *health,
        }),
        Call::Load(source) => Ok(Call::Load(source.copy()?)),
        Call::Switch { name } => Ok(Call::Switch { name: name.copy()? }),
        Call::Discard { name } => Ok(Call::Discard { name: name.copy()? }),
        Call::VclList => Ok(Call::VclList),
        Call::Drop { token } => Ok(Call::Drop { token: *token }),
        Call::End => Ok(Call::End),
    }
}

// What the answer to a line that makes no call leads to.
fn answered(answer: CliAnswer) -> Result<Instruction, AllocError>
    ensures { IfOk result (λ instruction. (text : List ℕ) × (answer ≡ CliAnswer.Refused text) × (instruction ≡ Instruction.Answer text)) }
{
    match answer {
        CliAnswer::Refused(text) => Ok(Instruction::Answer(text)),
        CliAnswer::NoMemory => Err(AllocError),
    }
}

/// What a line of the console leads to in a session, where no file can be read.
pub(crate) fn instruction_of(
    alloc: Global,
    line: &Text,
    vmods: &VmodTable,
) -> Result<Instruction, AllocError>
    ensures { IfOk result (LeadsTo vmods.now.stored line.now) }
{
    let command = match read_command(alloc, line, vmods) {
        Ok(command) => command,
        Err(answer) => return answered(answer),
    };
    match command {
        Command::Ping => Ok(Instruction::Ping),
        Command::Quit(text) => Ok(Instruction::Answer(text)),
        Command::Cache(call) => Ok(Instruction::Call(call)),
        Command::Load { name, file } => match loaded(alloc, name, &file, None, vmods) {
            Ok(_) => unreachable!(),
            Err(answer) => answered(answer),
        },
    }
}

// Whether it is a call that the console makes.
fn is_made(call: &Call) -> bool
    ensures { result ≡ is_console call.now }
{
    match call {
        Call::Ban(_) | Call::BanList | Call::SetHealth { .. } => true,
        Call::Load(_) | Call::Switch { .. } | Call::Discard { .. } | Call::VclList => true,
        _ => false,
    }
}

// What a line wants first.
fn begin_line(alloc: Global, instruction: &Instruction, moment: u64) -> Result<Want, AllocError>
    ensures { IfOk result (λ want. want ≡ start_want instruction.now moment) }
{
    match instruction {
        Instruction::Answer(text) => Ok(Want::Respond(text.copy()?)),
        Instruction::Ping => Ok(Want::Respond(pong(alloc, moment)?)),
        Instruction::Call(call) => {
            if is_made(call) {
                Ok(Want::Ask(copy_call(alloc, call)?))
            } else {
                Ok(Want::Done)
            }
        }
    }
}

// Whether the reply says something to the console, whatever the call's name.
fn is_told(reply: &Reply) -> bool
    ensures { (name : List ℕ) → IsTrue result ↔ IsSome (message_to name reply.now) }
{
    match reply {
        Reply::Banned => true,
        Reply::Bans(_) => true,
        Reply::HealthSet(true) => true,
        Reply::HealthSet(false) => true,
        Reply::Loaded(_) => true,
        Reply::NameTaken => true,
        Reply::Switched => true,
        Reply::NoVcl => true,
        Reply::Discarded => true,
        Reply::IsActive => true,
        Reply::Vcls(_) => true,
        _ => false,
    }
}

// What is said to a reply, if something is.
fn answer_call(alloc: Global, call: &Call, reply: &Reply) -> Result<Want, AllocError>
    ensures { IfOk result (λ want. want ≡ said_want (message_to (name_in call.now) reply.now)) }
{
    if is_told(reply) {
        Ok(Want::Respond(answer(alloc, call, reply)?))
    } else {
        Ok(Want::Done)
    }
}

// What a line wants after a reply.
fn answer_line(alloc: Global, instruction: &Instruction, reply: &Reply) -> Result<Want, AllocError>
    ensures { IfOk result (λ want. want ≡ reply_want instruction.now reply.now) }
{
    match instruction {
        Instruction::Answer(_) => Ok(Want::Done),
        Instruction::Ping => Ok(Want::Done),
        Instruction::Call(call) => answer_call(alloc, call, reply),
    }
}

/// What a line of the console wants next.
pub(crate) fn lead_line(
    alloc: Global,
    instruction: &Instruction,
    given: Given,
) -> Result<Want, AllocError>
    ensures { IfOk result (λ want. want ≡ console_want instruction.now given) }
{
    match given {
        Given::Start { moment } => begin_line(alloc, instruction, moment),
        Given::Told { reply, .. } => {
            let want = answer_line(alloc, instruction, &reply);
            drop(reply);
            want
        }
        Given::Came(got) => {
            drop(got);
            Ok(Want::Done)
        }
        Given::Sent | Given::Closed => Ok(Want::Done),
    }
}
