// Runs, and what is shown of them.
ghost use Rattle.std.specs.Prelude.{IfOk, IfSome};
ghost use Rattle.vcl_eval.specs.Turns.{Suits, IsSureAt};
ghost use Rattle.vcl_soundness.specs.Laws.{AreMeant};
ghost use Rattle.vcl_run_tests.specs.Runnable.{IsRunnable};
ghost use Rattle.vcl_run_tests.specs.Following.{Follows, FollowsTurned};
ghost use Rattle.vcl_context.specs.declared.turn.Answer.TheVariants.{Begin};

use crate::plain_context::context;
use crate::programs::{Subject, program};
use crate::words::push_word;
use row_settings::push_bytes;
use std::alloc::{AllocError, Global};
use units::Text;
use vcl_context::{Answer, Command, Context, FetchResponse, Return, Turn};
use vcl_eval::Machine;
use vcl_meaning::numbers_run;
use vcl_program::Compiled;
use vmod_host::VmodTable;

/// The commands that a run wants, what it leaves of what the subroutine is for, and the word of its end. Each purge counts 7.
pub fn shown(
    alloc: Global,
    functions: &VmodTable,
    subject: Subject,
    counted: u32,
    statements: &str,
) -> Result<String, AllocError>
    requires { AreMeant functions.now.stored }
{
    let mut shown = String::new(alloc);
    match program(alloc, functions, subject, statements)? {
        Some(program) => {
            let mut context = context(alloc)?;
            context.statements = counted;
            push_run(alloc, functions, &program, subject, context, &mut shown)?;
        }
        None => shown.push_str("no program")?,
    }
    Ok(shown)
}

/// The same of a run with these values of variables.
pub fn push_run(
    alloc: Global,
    functions: &VmodTable,
    program: &Compiled,
    subject: Subject,
    context: Box<Context>,
    shown: &mut String,
) -> Result<(), AllocError>
    requires { IsRunnable functions.now.stored program.now }
{
    let mut machine = machine(alloc, functions, program, subject, context)?;
    push_turns(alloc, functions, program, subject, &mut machine, shown)
}

fn machine(
    alloc: Global,
    functions: &VmodTable,
    program: &Compiled,
    subject: Subject,
    context: Box<Context>,
) -> Result<Box<Machine>, AllocError>
    requires { IsRunnable functions.now.stored program.now }
    ensures suits { IfOk result (λ machine. Suits Begin machine.value) }
    ensures sure { IfOk result (λ machine. IsSureAt program.now.code functions.now.stored machine.value) }
{
    numbers_run(program);
    let context = Box::into_inner(context);
    let machine = Machine::start(alloc, program, subject.subroutine(), context)?;
    Ok(Box::new(alloc, machine)?)
}

// Goes on until the end, of runs that want few commands.
fn push_turns(
    alloc: Global,
    functions: &VmodTable,
    program: &Compiled,
    subject: Subject,
    machine: &mut Machine,
    shown: &mut String,
) -> Result<(), AllocError>
    requires suits { Suits Begin machine.old }
    requires sure { IsSureAt program.now.code functions.now.stored machine.old }
{
    let mut answer = Answer::Begin;
    'turns: for _ in 0..9 {
        match push_next(alloc, functions, program, subject, machine, answer, shown)? {
            Some(next) => answer = next,
            None => return Ok(()),
        }
    }
    Err(AllocError)
}

// The next turn.
fn push_next(
    alloc: Global,
    functions: &VmodTable,
    program: &Compiled,
    subject: Subject,
    machine: &mut Machine,
    answer: Answer,
    shown: &mut String,
) -> Result<Option<Answer>, AllocError>
    requires suits { Suits answer machine.old }
    requires sure { IsSureAt program.now.code functions.now.stored machine.old }
    ensures suits { IfOk result (λ next. IfSome next (λ a. Suits a machine.new)) }
    ensures sure { IfOk result (λ next. IsSureAt program.now.code functions.now.stored machine.new) }
{
    let turned = machine.resume(alloc, program, functions, answer);
    let next = push_turned(shown, subject, &turned);
    drop(turned);
    next
}

// A command or the end, and what it is answered by.
fn push_turned(
    shown: &mut String,
    subject: Subject,
    turned: &Result<Turn, AllocError>,
) -> Result<Option<Answer>, AllocError>
    ensures { IfOk result (FollowsTurned turned.now) }
{
    match turned {
        Ok(turn) => push_turn(shown, subject, turn),
        Err(_) => Err(AllocError),
    }
}

fn push_turn(
    shown: &mut String,
    subject: Subject,
    turn: &Turn,
) -> Result<Option<Answer>, AllocError>
    ensures { IfOk result (Follows turn.now) }
{
    match turn {
        Turn::Need(Command::Ban(text)) => {
            push_ban(shown, text)?;
            Ok(Some(Answer::Done))
        }
        Turn::Need(Command::Xkey { keys, soft }) => {
            push_purge(shown, keys, *soft)?;
            Ok(Some(Answer::Number(7)))
        }
        Turn::End(word, context) => {
            push_ending(shown, subject, word, context)?;
            Ok(None)
        }
    }
}

fn push_ban(shown: &mut String, text: &Text) -> Result<(), AllocError> {
    shown.push_str("ban ")?;
    push_bytes(shown, text.bytes())?;
    shown.push(';')?;
    Ok(())
}

fn push_purge(shown: &mut String, keys: &Text, soft: bool) -> Result<(), AllocError> {
    shown.push_str(if soft { "softpurge " } else { "purge " })?;
    push_bytes(shown, keys.bytes())?;
    shown.push(';')?;
    Ok(())
}

fn push_ending(
    shown: &mut String,
    subject: Subject,
    word: &Return,
    context: &Context,
) -> Result<(), AllocError> {
    match subject {
        Subject::Recv => push_bytes(shown, context.request.head.url.bytes())?,
        Subject::Hash => push_key(shown, context.key.as_slice())?,
        Subject::BackendResponse => push_response(shown, &context.fetch_response)?,
        Subject::Synth | Subject::BackendError => push_made(shown, &context.body)?,
    }
    push_word(shown, word)
}

// Each text with a bar behind it.
fn push_key(shown: &mut String, texts: &[Text]) -> Result<(), AllocError> {
    for text in texts {
        push_bytes(shown, text.bytes())?;
        shown.push('|')?;
    }
    Ok(())
}

fn push_response(shown: &mut String, response: &FetchResponse) -> Result<(), AllocError> {
    write!(
        shown,
        "{} {} {} ",
        response.ttl, response.grace, response.keep
    )?;
    write!(shown, "{} {} ", response.uncacheable, response.head.status)?;
    push_bytes(shown, response.head.reason.bytes())
}

fn push_made(shown: &mut String, body: &Option<Text>) -> Result<(), AllocError> {
    match body {
        Some(body) => push_bytes(shown, body.bytes()),
        None => {
            shown.push_str("none")?;
            Ok(())
        }
    }
}
