// A session as it is read, made ready to be played.
ghost use Rattle.std.specs.Prelude.{◌≡◌, ◌≤◌, ◌<◌, List, IfOk, OnOk};
ghost use Rattle.replay.specs.Build.{HasClients, IsBuilt, IsMessage, IsOfClient, IsOneMore, StandsFor};
ghost use Rattle.vmod_host.specs.declared.signature.Stored.{Stored as StoredFunction};

use crate::console::instruction_of;
use crate::whole::read_whole_request;
use crate::{Aside, Boxed, Event, Heard, Message, NumberedEvent, Request, Script};
use seen_request::is_of_one_site;
use session_text::{Line, NumberedLine, Session};
use std::alloc::{AllocError, Global};
use units::{Sequence, Text};
use vmod_host::VmodTable;

/// What a client sent. A request that says two sites, or an empty one, isn't read.
fn build_message(alloc: Global, text: &[u8]) -> Result<Message, AllocError>
    ensures { IfOk result (IsMessage text.now) }
{
    match read_whole_request(alloc, text)? {
        Some((head, body)) => {
            if !is_of_one_site(&head) {
                drop((head, body));
                Ok(Message::Unreadable)
            } else {
                Ok(Message::Whole { head, body })
            }
        }
        None => Ok(Message::Unreadable),
    }
}

fn build_request(alloc: Global, client: u32, text: &[u8]) -> Result<Event, AllocError>
    requires { (0 < client) × (client ≤ 250) }
    ensures { (stored : List StoredFunction) → IfOk result (StandsFor stored (Line.Req client text.now)) }
{
    let message = build_message(alloc, text)?;
    let request = Boxed::new(alloc, Request { client, message })?;
    Ok(Event::Request(request))
}

fn build_cli(alloc: Global, text: &Text, vmods: &VmodTable) -> Result<Event, AllocError>
    ensures { IfOk result (StandsFor vmods.now.stored (Line.Cli text.now)) }
{
    let instruction = instruction_of(alloc, text, vmods)?;
    let request = Request {
        client: 0,
        message: Message::Line(instruction),
    };
    Ok(Event::Request(Boxed::new(alloc, request)?))
}

/// The event that a line stands for.
fn build_line(alloc: Global, line: Line, vmods: &VmodTable) -> Result<Event, AllocError>
    requires { IsOfClient line }
    ensures { IfOk result (StandsFor vmods.now.stored line) }
{
    match line {
        Line::At(moment) => Ok(Event::Moment(moment)),
        Line::Req { client, text } => build_request(alloc, client, text.bytes()),
        Line::Reply { fetch, text } => Ok(Event::Reply {
            fetch,
            heard: Heard::Bytes(text),
        }),
        Line::Fail(fetch) => Ok(Event::Reply {
            fetch,
            heard: Heard::Fault,
        }),
        Line::Cli(text) => build_cli(alloc, &text, vmods),
        Line::Lurk(count) => Ok(Event::Aside(Aside::Lurk(count))),
        Line::Probe { backend, good } => Ok(Event::Aside(Aside::Probe { backend, good })),
    }
}

// Puts the event of one line more behind those of the lines before it.
fn build_more(
    alloc: Global,
    events: &mut Vec<NumberedEvent>,
    numbered: NumberedLine,
    vmods: &VmodTable,
) -> Result<(), AllocError>
    requires { IsOfClient numbered.line }
    ensures { OnOk result (IsOneMore vmods.now.stored numbered events.old.items events.new.items) }
{
    let NumberedLine { number, line } = numbered;
    let event = build_line(alloc, line, vmods)?;
    match events.push(NumberedEvent { number, event }) {
        Ok(()) => Ok(()),
        Err(failed) => {
            drop(failed);
            Err(AllocError)
        }
    }
}

/// The session as events, its lines of the console read with the stored functions of the table. Each line is gone once
/// its event is there.
pub(crate) fn build(
    alloc: Global,
    session: Session,
    vmods: &VmodTable,
) -> Result<Script, AllocError>
    requires { HasClients session }
    ensures { IfOk result (IsBuilt vmods.now.stored session) }
{
    let Session { lines, end } = session;
    let mut events = Vec::new(alloc);
    for numbered in lines.into_vec() {
        build_more(alloc, &mut events, numbered, vmods)?;
    }
    Ok(Script {
        events: Sequence::from_vec(events),
        end,
    })
}
