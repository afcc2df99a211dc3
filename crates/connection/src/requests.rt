// The next request of a connection.
ghost use Rattle.std.specs.Prelude.{◌≡◌, ◌<◌, ◌≤◌, length, IsErrOf};
ghost use Rattle.wire.specs.Causes.{Rose};
ghost use Rattle.message_reader.specs.Inputs.{Hears};
ghost use Rattle.connection.specs.Reading.{RequestTold, MoreTold, FramedTold};

use http_bodies::{Framing, Kind, frame};
use http_heads::RequestHead;
use message_reader::{Intake, MAX_REQUEST_BODY, Stop, fill, read_body, read_head};
use seen_request::is_of_one_site;
use std::alloc::Global;
use units::Text;
use wire::{Link, Readiness};

// Asks again and again until a read answers at once.
fn await_more<L: Link>(link: &mut L)
    ensures flow { L.flow link.new ≡ L.flow link.old }
    ensures reads { L.read_faults link.new ≡ L.read_faults link.old }
    ensures writes { L.write_faults link.new ≡ L.write_faults link.old }
    ensures peer { L.peer link.new ≡ L.peer link.old }
{
    for turn in 0..u64::MAX {
        if link.wait() == Readiness::Ready {
            return;
        }
    }
}

// Whether a byte is held or comes.
fn has_more<L: Link>(link: &mut L, held: &mut Intake, room: &mut [u8]) -> Result<bool, Stop>
    requires { 0 < length room.old }
    ensures told { Hears (L.flow link.old) (L.flow link.new) held.old (MoreTold (L.flow link.new) held.new result) }
    ensures later { L.read_faults link.old ≤ L.read_faults link.new }
    ensures failed { IsErrOf result Stop.Read → Rose (L.read_faults link.old) (L.read_faults link.new) }
    ensures other { L.write_faults link.new ≡ L.write_faults link.old }
    ensures peer { L.peer link.new ≡ L.peer link.old }
{
    if !held.bytes().is_empty() {
        return Ok(true);
    }
    await_more(link);
    let count = fill(link, held, room)?;
    Ok(count > 0)
}

// Where the body of the request with this head ends. One that says two sites, or an empty one, is refused.
fn frame_request(head: &RequestHead) -> Result<Framing, Stop>
    ensures { FramedTold head.now result }
{
    if !is_of_one_site(head) {
        return Err(Stop::BadHead);
    }
    frame(&head.fields, Kind::Request).map_err(|_| Stop::BadBody)
}

/// Reads the next request, whose body has at most 1,048,576 bytes. What stands behind it is held. None is the end of the
/// input between requests. `Early`, `BadHead`, `BadBody` and `TooLarge` say that no request stands there: the input ends
/// inside it; its head is refused, has two Host fields or an absolute target without an authority; its fields frame no body,
/// or the body breaks; it is too large.
pub fn read_request<L: Link>(
    alloc: Global,
    link: &mut L,
    held: &mut Intake,
    room: &mut [u8],
) -> Result<Option<(RequestHead, Text)>, Stop>
    requires { 0 < length room.old }
    ensures told { Hears (L.flow link.old) (L.flow link.new) held.old (RequestTold (L.flow link.new) held.new result) }
    ensures later { L.read_faults link.old ≤ L.read_faults link.new }
    ensures failed { IsErrOf result Stop.Read → Rose (L.read_faults link.old) (L.read_faults link.new) }
    ensures other { L.write_faults link.new ≡ L.write_faults link.old }
    ensures peer { L.peer link.new ≡ L.peer link.old }
{
    if !has_more(link, held, room)? {
        return Ok(None);
    }
    let head: RequestHead = read_head(alloc, link, held, room)?;
    let framing = frame_request(&head)?;
    let body = read_body(alloc, link, held, room, framing, MAX_REQUEST_BODY)?;
    Ok(Some((head, body)))
}
