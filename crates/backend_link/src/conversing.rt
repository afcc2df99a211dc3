// A request over a link, and its reply.
ghost use Rattle.std.specs.Prelude.{◌≡◌, ◌≢◌, ◌≤◌, true, false, ℕ, List, [], ◌++◌, OnOk, OnErr, IsErrOf};
ghost use Rattle.wire.specs.Causes.{HasCause, Rose};
ghost use Rattle.wire.specs.Flow.{Moves, MovesPart};
ghost use Rattle.message_reader.specs.Inputs.{Hears};
ghost use Rattle.backend_link.specs.Exchanges.{Conversed, answer_of, exchange_of, asks_head};
ghost use Rattle.backend_link.specs.Replies.{BehindInterim, ReplyAt};
ghost use Rattle.backend_link.specs.Said.{SaidBy};
ghost use Rattle.backend_link.specs.Streams.{EndsByFraming, LeavesStream, says_close as closing};

use crate::replies::read_reply;
use http_bodies::{Framing, frame, kind_of_reply};
use http_heads::{BackendRequest, Exchange, Fields, ResponseHead, is_listed, print_request};
use message_reader::{Intake, Stop};
use std::alloc::Global;
use units::Text;
use wire::{Link, WriteFault, write_link};

/// How many bytes a read takes at most.
const ROOM: usize = 4096;

fn asks_for_head(request: &BackendRequest) -> bool
    ensures { result ≡ asks_head request.now }
{
    request.head.method.bytes() == b"HEAD".as_slice()
}

fn write_text<L: Link>(link: &mut L, text: &Text) -> Result<(), WriteFault>
    ensures whole { OnOk result (Moves (L.flow link.old) (L.flow link.new) [] text.now) }
    ensures part { OnErr result (MovesPart (L.flow link.old) (L.flow link.new) text.now) }
    ensures cause { HasCause (L.write_faults link.old) (L.write_faults link.new) result }
    ensures other { L.read_faults link.new ≡ L.read_faults link.old }
    ensures peer { L.peer link.new ≡ L.peer link.old }
{
    write_link(link, text.bytes())
}

fn write_parts<L: Link>(link: &mut L, head: &Text, body: &Text) -> Result<(), WriteFault>
    ensures whole { OnOk result (Moves (L.flow link.old) (L.flow link.new) [] (head.now ++ body.now)) }
    ensures part { OnErr result (MovesPart (L.flow link.old) (L.flow link.new) (head.now ++ body.now)) }
    ensures cause { HasCause (L.write_faults link.old) (L.write_faults link.new) result }
    ensures other { L.read_faults link.new ≡ L.read_faults link.old }
    ensures peer { L.peer link.new ≡ L.peer link.old }
{
    write_link(link, head.bytes())?;
    write_text(link, body)
}

// Writes both parts, and tells whether the link took them whole.
fn send<L: Link>(link: &mut L, head: &Text, body: &Text) -> bool
    ensures whole { result ≡ true → Moves (L.flow link.old) (L.flow link.new) [] (head.now ++ body.now) }
    ensures part { result ≡ false → MovesPart (L.flow link.old) (L.flow link.new) (head.now ++ body.now) }
    ensures failed { result ≡ false → Rose (L.write_faults link.old) (L.write_faults link.new) }
    ensures later { L.write_faults link.old ≤ L.write_faults link.new }
    ensures other { L.read_faults link.new ≡ L.read_faults link.old }
    ensures peer { L.peer link.new ≡ L.peer link.old }
{
    write_parts(link, head, body).is_ok()
}

fn answer_of_stop(stop: Stop) -> Exchange
    ensures { result ≡ answer_of stop }
{
    match stop {
        Stop::Read => Exchange::Fault(3),
        Stop::Early => Exchange::Fault(4),
        Stop::BadHead => Exchange::Fault(5),
        Stop::BadBody => Exchange::Fault(6),
        Stop::TooLarge => Exchange::Fault(7),
        Stop::NoMemory => Exchange::NoMemory,
    }
}

/// What the reading of a reply comes to as an exchange: the reply, a fault from 3 on, or want of memory.
pub fn answered(outcome: Result<(ResponseHead, Text), Stop>) -> Exchange
    ensures { result ≡ exchange_of outcome }
{
    match outcome {
        Ok((head, body)) => Exchange::Reply(head, body),
        Err(stop) => answer_of_stop(stop),
    }
}

// Whether a message with these fields ends its connection (RFC 9112, section 9.6).
fn says_close(fields: &Fields) -> bool
    ensures { result ≡ closing fields.now }
{
    is_listed(fields, b"Connection", b"close")
}

// Whether the reply's body ends by its framing, and not with the connection.
fn ends_by_framing(head: &ResponseHead, to_head: bool) -> bool
    ensures { result ≡ true → EndsByFraming to_head head.now }
{
    match frame(&head.fields, kind_of_reply(head.status, to_head)) {
        Ok(Framing::UntilEnd) | Err(_) => false,
        Ok(_) => true,
    }
}

// Whether another exchange may follow this reply over the same stream.
fn leaves_stream(request: &BackendRequest, head: &ResponseHead, held: &Intake) -> bool
    ensures { result ≡ true → LeavesStream request.now head.now held.now }
{
    head.version == 11
        && held.bytes().is_empty()
        && !says_close(&request.head.fields)
        && !says_close(&head.fields)
        && ends_by_framing(head, asks_for_head(request))
}

// Reads the reply to a request. The link is told where its stream may serve another exchange.
fn receive<L: Link>(
    alloc: Global,
    link: &mut L,
    request: &BackendRequest,
) -> Result<(ResponseHead, Text), Stop>
    ensures told { Hears (L.flow link.old) (L.flow link.new) [] (λ read. (rest : List ℕ)
        × BehindInterim (λ passed text. ReplyAt (asks_head request.now) (L.flow link.new) rest passed result text) read) }
    ensures later { L.read_faults link.old ≤ L.read_faults link.new }
    ensures failed { IsErrOf result Stop.Read → Rose (L.read_faults link.old) (L.read_faults link.new) }
    ensures other { L.write_faults link.new ≡ L.write_faults link.old }
    ensures peer { L.peer link.new ≡ L.peer link.old }
{
    let mut held = Intake::new(alloc);
    let mut room = [0u8; ROOM];
    let to_head = asks_for_head(request);
    let reply = read_reply(alloc, link, &mut held, &mut room, to_head);
    if let Ok((head, _)) = &reply {
        if leaves_stream(request, head, &held) {
            link.allow_reuse();
        }
    }
    reply
}

/// Sends a request over a link and reads its reply. The answer is a reply, the faults 2 to 7 of `Exchange`, or want of
/// memory. Where no call failed and memory was there, it is the answer that the link's bytes say.
pub fn converse<L: Link>(alloc: Global, link: &mut L, request: &BackendRequest) -> Exchange
    ensures told { Conversed request.now (L.flow link.old) (L.flow link.new) result }
    ensures writes { result ≡ Exchange.Fault 2 → Rose (L.write_faults link.old) (L.write_faults link.new) }
    ensures reads { result ≡ Exchange.Fault 3 → Rose (L.read_faults link.old) (L.read_faults link.new) }
    ensures dials { result ≢ Exchange.Fault 1 }
    ensures complete { ¬ (Rose (L.write_faults link.old) (L.write_faults link.new)) → ¬ (Rose (L.read_faults link.old) (L.read_faults link.new))
        → result ≢ Exchange.NoMemory → SaidBy request.now (L.flow link.old) result }
    ensures later_writes { L.write_faults link.old ≤ L.write_faults link.new }
    ensures later_reads { L.read_faults link.old ≤ L.read_faults link.new }
    ensures peer { L.peer link.new ≡ L.peer link.old }
{
    let text = match print_request(alloc, &request.head) {
        Ok(text) => text,
        Err(_) => return Exchange::NoMemory,
    };
    if !send(link, &text, &request.body) {
        return Exchange::Fault(2);
    }
    answered(receive(alloc, link, request))
}
