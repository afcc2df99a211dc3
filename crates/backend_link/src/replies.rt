// A reply behind interim replies.
ghost use Rattle.std.specs.Prelude.{◌≡◌, ◌⊎◌, ◌==◌, ◌<◌, ◌≤◌, true, false, length, IsErrOf};
ghost use Rattle.wire.specs.Causes.{Rose};
ghost use Rattle.message_reader.specs.Inputs.{Hears};
ghost use Rattle.backend_link.specs.Replies.{interim_limit, BehindInterim, FinalAt, ReplyAt, is_interim as interim_status};

use crate::limits::{MAX_BODY, MAX_INTERIM};
use http_bodies::{frame, kind_of_reply};
use http_heads::ResponseHead;
use message_reader::{Intake, Stop, read_body, read_head};
use std::alloc::Global;
use units::Text;
use wire::Link;

/// Whether a reply of this status stands in front of another (RFC 9110, section 15.2).
pub fn is_interim(status: u16) -> bool
    ensures { result ≡ interim_status status }
{
    (100..200).contains(&status)
}

// Whether an interim reply behind so many others isn't passed over.
fn is_refused(status: u16, passed: u8) -> bool
    ensures refused { result ≡ true → (status ≡ 101) ⊎ (interim_limit ≤ passed) }
    ensures passed { result ≡ false → ((status == 101) ≡ false) × (passed < interim_limit) }
{
    status == 101 || passed >= MAX_INTERIM
}

/// Reads the head of the final reply. What stands behind it is held.
pub fn read_final<L: Link>(
    alloc: Global,
    link: &mut L,
    held: &mut Intake,
    room: &mut [u8],
) -> Result<ResponseHead, Stop>
    requires { 0 < length room.old }
    ensures told { Hears (L.flow link.old) (L.flow link.new) held.old (BehindInterim (λ passed text. FinalAt (L.flow link.new) held.new passed result text)) }
    ensures later { L.read_faults link.old ≤ L.read_faults link.new }
    ensures failed { IsErrOf result Stop.Read → Rose (L.read_faults link.old) (L.read_faults link.new) }
    ensures other { L.write_faults link.new ≡ L.write_faults link.old }
    ensures peer { L.peer link.new ≡ L.peer link.old }
{
    let mut passed: u8 = 0;
    'passing: loop {
        let head: ResponseHead = read_head(alloc, link, held, room)?;
        if !is_interim(head.status) {
            return Ok(head);
        }
        if is_refused(head.status, passed) {
            return Err(Stop::BadHead);
        }
        passed += 1;
    }
}

/// Reads the final reply to a request, which was HEAD or not. What stands behind it is held.
pub fn read_reply<L: Link>(
    alloc: Global,
    link: &mut L,
    held: &mut Intake,
    room: &mut [u8],
    to_head: bool,
) -> Result<(ResponseHead, Text), Stop>
    requires { 0 < length room.old }
    ensures told { Hears (L.flow link.old) (L.flow link.new) held.old (BehindInterim (λ passed text. ReplyAt to_head (L.flow link.new) held.new passed result text)) }
    ensures later { L.read_faults link.old ≤ L.read_faults link.new }
    ensures failed { IsErrOf result Stop.Read → Rose (L.read_faults link.old) (L.read_faults link.new) }
    ensures other { L.write_faults link.new ≡ L.write_faults link.old }
    ensures peer { L.peer link.new ≡ L.peer link.old }
{
    let head = read_final(alloc, link, held, room)?;
    let framing = match frame(&head.fields, kind_of_reply(head.status, to_head)) {
        Ok(framing) => framing,
        Err(_) => return Err(Stop::BadBody),
    };
    let body = read_body(alloc, link, held, room, framing, MAX_BODY)?;
    Ok((head, body))
}
