// A body at the front of what comes.
ghost use Rattle.std.specs.Prelude.{◌≡◌, ◌<◌, ◌≤◌, length, IsErrOf};
ghost use Rattle.wire.specs.Causes.{Rose};
ghost use Rattle.message_reader.specs.Inputs.{Hears};
ghost use Rattle.message_reader.specs.BodiesTold.{BodyTold, FeedTold, HeldTold};

use crate::stop::stop_of_body;
use crate::{Intake, Stop, fill};
use http_bodies::{BodyReader, Framing};
use std::alloc::Global;
use units::Text;
use wire::Link;

/// Reads a body with this framing, of at most `limit` bytes. What stands behind it is held.
pub fn read_body<L: Link>(
    alloc: Global,
    link: &mut L,
    held: &mut Intake,
    room: &mut [u8],
    framing: Framing,
    limit: u64,
) -> Result<Text, Stop>
    requires { 0 < length room.old }
    ensures told { Hears (L.flow link.old) (L.flow link.new) held.old (BodyTold framing limit (L.flow link.new) held.new result) }
    ensures later { L.read_faults link.old ≤ L.read_faults link.new }
    ensures failed { IsErrOf result Stop.Read → Rose (L.read_faults link.old) (L.read_faults link.new) }
    ensures other { L.write_faults link.new ≡ L.write_faults link.old }
    ensures peer { L.peer link.new ≡ L.peer link.old }
{
    let mut reader = BodyReader::of(alloc, framing, limit);
    feed_all(link, held, room, &mut reader)?;
    match reader.finish() {
        Ok(body) => Ok(body),
        Err(error) => Err(stop_of_body(error)),
    }
}

// Feeds the reader until the body is whole, or nothing more comes.
fn feed_all<L: Link>(
    link: &mut L,
    held: &mut Intake,
    room: &mut [u8],
    reader: &mut BodyReader,
) -> Result<(), Stop>
    requires { 0 < length room.old }
    ensures told { Hears (L.flow link.old) (L.flow link.new) held.old (FeedTold reader.old reader.new (L.flow link.new) held.new result) }
    ensures later { L.read_faults link.old ≤ L.read_faults link.new }
    ensures failed { IsErrOf result Stop.Read → Rose (L.read_faults link.old) (L.read_faults link.new) }
    ensures other { L.write_faults link.new ≡ L.write_faults link.old }
    ensures peer { L.peer link.new ≡ L.peer link.old }
{
    for turn in 0..u64::MAX {
        if feed_held(held, reader)? {
            return Ok(());
        }
        if fill(link, held, room)? == 0 {
            return Ok(());
        }
    }
    Err(Stop::NoMemory)
}

// Feeds the bytes that are held. Whether the body is whole.
fn feed_held(held: &mut Intake, reader: &mut BodyReader) -> Result<bool, Stop>
    ensures { HeldTold reader.old reader.new held.old held.new result }
{
    match reader.feed(held.bytes()) {
        Ok(count) => {
            held.skip(count);
            Ok(reader.done())
        }
        Err(error) => Err(stop_of_body(error)),
    }
}
