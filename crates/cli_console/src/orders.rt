// What a line orders, as far as that takes no text of a VCL.
ghost use Rattle.std.specs.Prelude.{◌≡◌, ◌∷◌, ℕ, List, length, IfOk, IfErr, MatchResult, IsTrue};
ghost use Rattle.cli_console.specs.Orders.{health_named, ban_number, is_over, lacks_name, kind_of, takes, Means, Refuses, IsOrder, IsWrongOrder, IsOrderOf, IsWrongLine};
ghost use Rattle.cli_console.specs.Refusals.{TellsWhy};
ghost use Rattle.cli_console.specs.declared.commands.CommandKind.TheVariants as command;

use crate::commands::{CommandKind, Parameters, command_named, parameters_of};
use crate::message::Message;
use crate::names::is_vcl_name;
use crate::refusal::{CliAnswer, refusal};
use crate::texts::{both, only};
use crate::words::split_name;
use ban_expr::{BanError, read};
use cache_law::{Call, Health};
use cli_words::{Words, WordsError, split};
use std::alloc::{AllocError, Global};
use units::{Shared, Text};

/// What a line orders.
#[derive(Drop)]
pub enum Order {
    Ping,
    Quit,
    /// A call of the cache.
    Cache(Call),
    /// The text of a VCL under a name.
    Inline { name: Text, text: Text },
    /// A file with the text of a VCL, under a name.
    Load { name: Text, file: Text },
}

/// What a line orders, or why it orders nothing: it has no words, names no command, has too few or too many words for
/// it, or the wrong ones.
pub fn read_order(alloc: Global, line: &Text) -> Result<Order, CliAnswer>
    ensures order { IfOk result (λ order. IsOrderOf line.now order) }
    ensures refused { IfErr result (λ answer. TellsWhy (IsWrongLine line.now) answer) }
{
    match split(alloc, line) {
        Ok(words) => order_of_words(alloc, words),
        Err(WordsError::Syntax) => Err(refusal(alloc, Message::SyntaxError)),
        Err(WordsError::NoMemory) => Err(CliAnswer::NoMemory),
    }
}

fn order_of_words(alloc: Global, words: Words) -> Result<Order, CliAnswer>
    ensures order { IfOk result (λ order. IsOrder words order) }
    ensures refused { IfErr result (λ answer. TellsWhy (IsWrongOrder words) answer) }
{
    let Some(called) = split_name(words) else {
        return Err(refusal(alloc, Message::UnknownRequest));
    };
    match kind_of(called.name.bytes(), called.arguments.as_slice()) {
        Ok(kind) => order_of_kind(alloc, kind, &called.arguments),
        Err(message) => Err(refusal(alloc, message)),
    }
}

// The command that is called, where it may have these words.
fn kind_of(name: &[u8], arguments: &[Text]) -> Result<CommandKind, Message>
    ensures result { result ≡ kind_of name.now arguments.now }
    ensures takes { IfOk result (λ kind. takes kind (length arguments.now)) }
{
    let Some(kind) = command_named(name) else {
        return Err(Message::UnknownRequest);
    };
    let parameters = parameters_of(kind);
    if arguments.len() < parameters.least {
        return Err(Message::TooFew);
    }
    if is_over(parameters, arguments.len()) {
        return Err(Message::TooMany);
    }
    if lacks_name(parameters, arguments) {
        return Err(Message::BadName);
    }
    Ok(kind)
}

fn is_over(parameters: Parameters, count: usize) -> bool
    ensures { result ≡ is_over parameters.most count }
{
    match parameters.most {
        None => false,
        Some(most) => most < count,
    }
}

fn lacks_name(parameters: Parameters, arguments: &[Text]) -> bool
    ensures { result ≡ lacks_name parameters.begins_with_vcl arguments.now }
{
    match arguments {
        [] => false,
        [name, ..] => parameters.begins_with_vcl && !is_vcl_name(name.bytes()),
    }
}

fn order_of_kind(alloc: Global, kind: CommandKind, arguments: &Words) -> Result<Order, CliAnswer>
    requires { takes kind (length arguments.now) }
    ensures order { IfOk result (λ order. Means kind arguments.now order) }
    ensures refused { IfErr result (λ answer. TellsWhy (Refuses kind arguments.now) answer) }
{
    match kind {
        CommandKind::Ping => Ok(Order::Ping),
        CommandKind::VclInline => inline(arguments.as_slice()),
        CommandKind::VclLoad => load(arguments.as_slice()),
        CommandKind::VclUse => switch(arguments.as_slice()),
        CommandKind::VclDiscard => discard(arguments.as_slice()),
        CommandKind::VclList => Ok(Order::Cache(Call::VclList)),
        CommandKind::Ban => ban(alloc, arguments),
        CommandKind::BanList => Ok(Order::Cache(Call::BanList)),
        CommandKind::SetHealth => set_health(alloc, arguments.as_slice()),
        CommandKind::Quit => Ok(Order::Quit),
    }
}

fn inline(arguments: &[Text]) -> Result<Order, CliAnswer>
    requires { length arguments.now ≡ 2 }
    ensures order { IfOk result (λ order. Means command.VclInline arguments.now order) }
    ensures refused { IfErr result (λ answer. TellsWhy (Refuses command.VclInline arguments.now) answer) }
{
    let pair = both(arguments);
    Ok(Order::Inline {
        name: pair.first.copy()?,
        text: pair.second.copy()?,
    })
}

fn load(arguments: &[Text]) -> Result<Order, CliAnswer>
    requires { length arguments.now ≡ 2 }
    ensures order { IfOk result (λ order. Means command.VclLoad arguments.now order) }
    ensures refused { IfErr result (λ answer. TellsWhy (Refuses command.VclLoad arguments.now) answer) }
{
    let pair = both(arguments);
    Ok(Order::Load {
        name: pair.first.copy()?,
        file: pair.second.copy()?,
    })
}

fn switch(arguments: &[Text]) -> Result<Order, CliAnswer>
    requires { length arguments.now ≡ 1 }
    ensures order { IfOk result (λ order. Means command.VclUse arguments.now order) }
    ensures refused { IfErr result (λ answer. TellsWhy (Refuses command.VclUse arguments.now) answer) }
{
    Ok(Order::Cache(Call::Switch {
        name: only(arguments).copy()?,
    }))
}

fn discard(arguments: &[Text]) -> Result<Order, CliAnswer>
    requires { length arguments.now ≡ 1 }
    ensures order { IfOk result (λ order. Means command.VclDiscard arguments.now order) }
    ensures refused { IfErr result (λ answer. TellsWhy (Refuses command.VclDiscard arguments.now) answer) }
{
    Ok(Order::Cache(Call::Discard {
        name: only(arguments).copy()?,
    }))
}

fn ban(alloc: Global, arguments: &Words) -> Result<Order, CliAnswer>
    ensures order { IfOk result (λ order. Means command.Ban arguments.now order) }
    ensures refused { IfErr result (λ answer. TellsWhy (Refuses command.Ban arguments.now) answer) }
{
    match read(alloc, arguments) {
        Ok(ban) => Ok(Order::Cache(Call::Ban(Shared::new(alloc, ban)?))),
        Err(error) => Err(refuse_ban(alloc, error)),
    }
}

fn refuse_ban(alloc: Global, error: BanError) -> CliAnswer
    ensures { TellsWhy (IsBanRefused error) result }
{
    match ban_number(error) {
        Some(number) => refusal(alloc, Message::BanRefused(number)),
        None => CliAnswer::NoMemory,
    }
}

ghost use Rattle.cli_console.specs.Orders.{IsBanRefused};

// The number by which it is shown why words are no ban.
fn ban_number(error: BanError) -> Option<u8>
    ensures { result ≡ ban_number error }
{
    match error {
        BanError::Field => Some(1),
        BanError::Operator => Some(2),
        BanError::Argument => Some(3),
        BanError::Pattern => Some(4),
        BanError::Shape => Some(5),
        BanError::NoMemory => None,
    }
}

fn set_health(alloc: Global, arguments: &[Text]) -> Result<Order, CliAnswer>
    requires { length arguments.now ≡ 2 }
    ensures order { IfOk result (λ order. Means command.SetHealth arguments.now order) }
    ensures refused { IfErr result (λ answer. TellsWhy (Refuses command.SetHealth arguments.now) answer) }
{
    let pair = both(arguments);
    let Some(health) = health_named(pair.second.bytes()) else {
        return Err(refusal(alloc, Message::NoState));
    };
    Ok(Order::Cache(Call::SetHealth {
        backend: pair.first.copy()?,
        health,
    }))
}

#[tactic(auto, unfolding(crate::specs::Orders::health_named))]
fn health_named(word: &[u8]) -> Option<Health>
    ensures { result ≡ health_named word.now }
{
    if word == b"auto".as_slice() {
        Some(Health::Auto)
    } else if word == b"healthy".as_slice() {
        Some(Health::Healthy)
    } else if word == b"sick".as_slice() {
        Some(Health::Sick)
    } else {
        None
    }
}
