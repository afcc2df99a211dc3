// Whole pieces over a connection.
ghost use Rattle.std.specs.Prelude.{◌≡◌, ◌<◌, ◌≤◌, [], length, take, OnOk, OnErr};
ghost use Rattle.wire.specs.Causes.{HasCause, Rose};
ghost use Rattle.wire.specs.Flow.{Moves, MovesPart};

use crate::{Link, WriteFault};

/// Writes the piece as far as the connection takes it, and tells how much that is. It takes no memory.
pub fn write_most<L: Link>(link: &mut L, piece: &[u8]) -> usize
    ensures within { result ≤ length piece.now }
    ensures moves { Moves (L.flow link.old) (L.flow link.new) [] (take result piece.now) }
    ensures failed { result < length piece.now → Rose (L.write_faults link.old) (L.write_faults link.new) }
    ensures later { L.write_faults link.old ≤ L.write_faults link.new }
    ensures other { L.read_faults link.new ≡ L.read_faults link.old }
    ensures peer { L.peer link.new ≡ L.peer link.old }
{
    let mut at = 0;
    while at < piece.len() {
        match link.write(&piece[at..]) {
            Ok(0) => return at,
            Ok(taken) => at += taken,
            Err(_) => return at,
        }
    }
    at
}

/// Writes the whole piece over a connection. It takes no memory.
pub fn write_link<L: Link>(link: &mut L, piece: &[u8]) -> Result<(), WriteFault>
    ensures whole { OnOk result (Moves (L.flow link.old) (L.flow link.new) [] piece.now) }
    ensures part { OnErr result (MovesPart (L.flow link.old) (L.flow link.new) piece.now) }
    ensures cause { HasCause (L.write_faults link.old) (L.write_faults link.new) result }
    ensures other { L.read_faults link.new ≡ L.read_faults link.old }
    ensures peer { L.peer link.new ≡ L.peer link.old }
{
    if write_most(link, piece) < piece.len() {
        return Err(WriteFault);
    }
    Ok(())
}
