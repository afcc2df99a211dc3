// What an exchange comes to, as it is heard.
ghost use Rattle.std.specs.Prelude.{◌≡◌, IfOk};
ghost use Rattle.replay.specs.Scene.{IsHeardAs};

use crate::Heard;
use backend_link::read_reply;
use http_heads::Exchange;
use std::alloc::{AllocError, Global};

/// What an exchange comes to that is heard so, where its request was HEAD or not.
pub(crate) fn hear(alloc: Global, to_head: bool, heard: Heard) -> Result<Exchange, AllocError>
    ensures { IfOk result (IsHeardAs to_head heard) }
{
    match heard {
        Heard::Bytes(bytes) => read_reply(alloc, bytes.bytes(), to_head),
        Heard::Fault => Ok(Exchange::Fault(1)),
    }
}
