// A head at the front of what comes.
ghost use Rattle.std.specs.Prelude.{◌≡◌, ◌<◌, ◌≤◌, ℕ, List, length, Option, Result, IfOk, IfSome, IfNone, IsErrOf};
ghost use Rattle.http_heads.specs.Heads.{AnswersRequest, AnswersResponse};
ghost use Rattle.http_heads.specs.declared.message.HeadError.{HeadError as Refusal};
ghost use Rattle.wire.specs.Causes.{Rose};
ghost use Rattle.message_reader.specs.Inputs.{Hears};
ghost use Rattle.message_reader.specs.HeadsTold.{HeadTold, TryTold};

use crate::stop::stop_of_head;
use crate::watch::Watch;
use crate::{Intake, Stop, fill};
use http_heads::{HeadError, RequestHead, ResponseHead, read_request, read_response};
use std::alloc::Global;
use wire::Link;

/// A kind of head, which bytes may begin with.
pub trait Head: Drop {
    /// What an answer tells of the bytes.
    ghost answers: { List ℕ → Result (Option (Self × ℕ)) Refusal → Type 0 };

    /// The head at the front of the bytes, and its length. None where it isn't whole yet.
    fn read_front(alloc: Global, bytes: &[u8]) -> Result<Option<(Self, usize)>, HeadError>
        ensures answer { answers bytes.now result }
        ensures within { IfOk result (λ found. IfSome found (λ f. f.1 ≤ length bytes.now)) }
        ensures short { IfOk result (λ found. IfNone found (length bytes.now < 32768)) };
}

impl Head for ResponseHead {
    ghost answers = { AnswersResponse };

    fn read_front(alloc: Global, bytes: &[u8]) -> Result<Option<(ResponseHead, usize)>, HeadError> {
        read_response(alloc, bytes)
    }
}

impl Head for RequestHead {
    ghost answers = { AnswersRequest };

    fn read_front(alloc: Global, bytes: &[u8]) -> Result<Option<(RequestHead, usize)>, HeadError> {
        read_request(alloc, bytes)
    }
}

/// Reads a head. What stands behind it is held.
pub fn read_head<H: Head, L: Link>(
    alloc: Global,
    link: &mut L,
    held: &mut Intake,
    room: &mut [u8],
) -> Result<H, Stop>
    requires { 0 < length room.old }
    ensures told { Hears (L.flow link.old) (L.flow link.new) held.old (HeadTold H.answers (L.flow link.new) held.new result) }
    ensures later { L.read_faults link.old ≤ L.read_faults link.new }
    ensures failed { IsErrOf result Stop.Read → Rose (L.read_faults link.old) (L.read_faults link.new) }
    ensures other { L.write_faults link.new ≡ L.write_faults link.old }
    ensures peer { L.peer link.new ≡ L.peer link.old }
{
    let mut watch = Watch::new();
    let mut ended = false;
    'reading: loop {
        if let Some(head) = take_due(alloc, held, &mut watch, ended)? {
            return Ok(head);
        }
        ended = fill(link, held, room)? == 0;
    }
}

// Takes a head from the front of the bytes that are held, if one is worth a try.
fn take_due<H: Head>(
    alloc: Global,
    held: &mut Intake,
    watch: &mut Watch,
    ended: bool,
) -> Result<Option<H>, Stop>
    ensures { TryTold H.answers ended held.old held.new result }
{
    if ended || watch.is_due(held.bytes()) {
        take_head(alloc, held, ended)
    } else {
        Ok(None)
    }
}

fn take_head<H: Head>(alloc: Global, held: &mut Intake, ended: bool) -> Result<Option<H>, Stop>
    ensures { TryTold H.answers ended held.old held.new result }
{
    match H::read_front(alloc, held.bytes()) {
        Ok(Some((head, count))) => {
            held.skip(count);
            Ok(Some(head))
        }
        Ok(None) => { if ended { Err(Stop::Early) } else { Ok(None) } }
        Err(error) => Err(stop_of_head(error)),
    }
}
