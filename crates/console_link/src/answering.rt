// How a line is answered: its call is made, and the answer to the reply written.
ghost use Rattle.std.specs.Prelude.{◌≡◌, ◌≤◌, [], true, IfOk, IsSome, None};
ghost use Rattle.wire.specs.Tapes.{Tells};
ghost use Rattle.turnstile.specs.Handles.{known};
ghost use Rattle.turnstile.specs.Knowledge.{saw};
ghost use Rattle.shared_cache.specs.Passes.{IsPassOf};
ghost use Rattle.shared_cache.specs.Sharing.{SeesLegal};
ghost use Rattle.cli_console.specs.Answers.{is_console, message_to, name_in};
ghost use Rattle.console_link.specs.Answering.{AnswerTold, EnterTold, IsKept, PingTold, ReplyTold};
ghost use Rattle.console_link.specs.Talks.{stand_of};

use crate::instructions::{Instruction, instruction_of};
use crate::{ConsoleEnd, ConsoleLine, Desk, Site};
use cache_law::{CacheCore, Call, StepError, Told};
use cli_console::{answer, console_calls_are_answered, pong};
use shared_cache::CachePass;
use std::alloc::{AllocError, Global};
use std::sync::Wait;
use units::Text;
use wire::Clock;
use world::Shelf;

// The same call of a console again.
fn copy_call(call: &Call) -> Result<Call, AllocError>
    requires { is_console call.now ≡ true }
    ensures { IfOk result (λ same. same ≡ call.now) }
{
    match call {
        Call::Ban(ban) => Ok(Call::Ban(ban.copy()?)),
        Call::BanList => Ok(Call::BanList),
        Call::SetHealth { backend, health } => Ok(Call::SetHealth {
            backend: backend.copy()?,
            health: *health,
        }),
        Call::Load(source) => Ok(Call::Load(source.copy()?)),
        Call::Switch { name } => Ok(Call::Switch { name: name.copy()? }),
        Call::Discard { name } => Ok(Call::Discard { name: name.copy()? }),
        Call::VclList => Ok(Call::VclList),
        _ => unreachable!(),
    }
}

// What is kept of a line whose call was entered: the answer to its reply or, for want of memory, none.
fn answer_reply(
    alloc: Global,
    line: Text,
    call: &Call,
    told: Told,
    none: Text,
) -> (ConsoleLine, Option<ConsoleEnd>)
    requires some { IsSome (message_to (name_in call.now) told.reply) }
    requires none { none ≡ [] }
    ensures kept { IsKept line told result.0 }
    ensures told { ReplyTold call.now told result.0 result.1 }
{
    let (sent, ended) = match answer(alloc, call, &told.reply) {
        Ok(sent) => (sent, None),
        Err(_) => (none, Some(ConsoleEnd::NoMemory)),
    };
    let kept = ConsoleLine {
        line,
        moment: told.moment,
        place: Some(told.place),
        sent,
    };
    (kept, ended)
}

// Makes the call of a line, and answers its reply.
fn enter<R: Wait, C: CacheCore, K: Clock>(
    site: &Site<'_, R, C>,
    pass: &mut CachePass,
    clock: &mut K,
    line: Text,
    call: Call,
) -> Result<(ConsoleLine, Option<ConsoleEnd>), ConsoleEnd>
    requires pass { IsPassOf site.now.shared.now pass.old }
    requires console { is_console call ≡ true }
    ensures pass { IsPassOf site.now.shared.now pass.new × (known pass.new ≡ saw (known pass.old) (known pass.new).seen) }
    ensures told { EnterTold (known pass.old) (known pass.new) (K.readings clock.old) (K.readings clock.new) line call result }
    ensures legal { SeesLegal (known pass.old) → SeesLegal (known pass.new) }
    ensures words { K.words clock.new ≡ K.words clock.old }
{
    let Ok(none) = Text::of(site.alloc, b"") else {
        return Err(ConsoleEnd::NoMemory);
    };
    let Ok(same) = copy_call(&call) else {
        return Err(ConsoleEnd::NoMemory);
    };
    console_calls_are_answered();
    match site.shared.call(site.rt, site.alloc, pass, clock, call) {
        Ok(told) => Ok(answer_reply(site.alloc, line, &same, told, none)),
        Err(StepError::HistoryFull) => Err(ConsoleEnd::HistoryFull),
        Err(_) => Err(ConsoleEnd::NoMemory),
    }
}

// What is kept of a line that makes no call.
fn alone<K: Clock>(clock: &mut K, line: Text, sent: Text) -> ConsoleLine
    ensures line { result.line ≡ line }
    ensures sent { result.sent ≡ sent }
    ensures place { result.place ≡ None }
    ensures moment { Tells (K.readings clock.old) (K.readings clock.new) result.moment }
    ensures words { K.words clock.new ≡ K.words clock.old }
{
    ConsoleLine {
        line,
        moment: clock.now(),
        place: None,
        sent,
    }
}

// The answer to `ping`, which tells the moment of the line.
fn answer_ping<K: Clock>(
    alloc: Global,
    clock: &mut K,
    line: Text,
) -> Result<(ConsoleLine, Option<ConsoleEnd>), ConsoleEnd>
    ensures told { PingTold (K.readings clock.old) (K.readings clock.new) line result }
    ensures words { K.words clock.new ≡ K.words clock.old }
{
    let moment = clock.now();
    let Ok(sent) = pong(alloc, moment) else {
        return Err(ConsoleEnd::NoMemory);
    };
    let kept = ConsoleLine {
        line,
        moment,
        place: None,
        sent,
    };
    Ok((kept, None))
}

/// Makes what a line says, and gives what is kept of it and, where the talk ends behind it, how.
pub(crate) fn answer_line<R: Wait, C: CacheCore, S: Shelf, K: Clock>(
    site: &Site<'_, R, C>,
    desk: &mut Desk<S, K>,
    line: Text,
) -> Result<(ConsoleLine, Option<ConsoleEnd>), ConsoleEnd>
    requires pass { IsPassOf site.now.shared.now desk.old.pass }
    ensures pass { IsPassOf site.now.shared.now desk.new.pass × (known desk.new.pass ≡ saw (known desk.old.pass) (known desk.new.pass).seen) }
    ensures told { AnswerTold site.now.vmods.now.stored (S.files desk.old.shelf) (stand_of S.faults K.readings desk.old) (stand_of S.faults K.readings desk.new) line result }
    ensures legal { SeesLegal (known desk.old.pass) → SeesLegal (known desk.new.pass) }
    ensures words { K.words desk.new.clock ≡ K.words desk.old.clock }
    ensures later { S.faults desk.old.shelf ≤ S.faults desk.new.shelf }
    ensures files { S.files desk.new.shelf ≡ S.files desk.old.shelf }
{
    console_calls_are_answered();
    match instruction_of(site.alloc, &line, &mut desk.shelf, site.vmods) {
        Ok(Instruction::Call(call)) => enter(site, &mut desk.pass, &mut desk.clock, line, call),
        Ok(Instruction::Answer(sent)) => Ok((alone(&mut desk.clock, line, sent), None)),
        Ok(Instruction::Quit(sent)) => {
            Ok((alone(&mut desk.clock, line, sent), Some(ConsoleEnd::Quit)))
        }
        Ok(Instruction::Ping) => answer_ping(site.alloc, &mut desk.clock, line),
        Err(_) => Err(ConsoleEnd::NoMemory),
    }
}
