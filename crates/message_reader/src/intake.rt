// The bytes that came and aren't used yet.
ghost use Rattle.std.specs.Prelude.{◌≡◌, ◌+◌, ◌<◌, ◌≤◌, ◌++◌, [], drop, length, IfOk, OnOk, OnErr, IsErrOf};
ghost use Rattle.wire.specs.Causes.{Rose};
ghost use Rattle.message_reader.specs.Inputs.{Hears, Fills};

use crate::Stop;
use std::alloc::{AllocError, Global};
use std::marker::Model;
use wire::Link;

/// The bytes of a connection that came and aren't used yet, in their order. Clauses see them as a list.
#[derive(Drop)]
pub struct Intake {
    bytes: Vec<u8>,
    at: usize,
}

impl Model for Intake {
    ghost use Rattle.std.specs.Prelude.{List, ℕ, drop, length, ◌≤◌};

    ghost Value = { List ℕ };

    ghost view = { λ i. drop i.at i.bytes.items };

    ghost invariant = { λ i. i.at ≤ length i.bytes.items };
}

impl Intake {
    pub fn new(alloc: Global) -> Intake
        ensures { result ≡ [] }
    {
        Intake {
            bytes: Vec::new(alloc),
            at: 0,
        }
    }

    pub fn bytes(&self) -> &[u8]
        ensures { result.now ≡ self.now }
    {
        &self.bytes[self.at..]
    }

    /// Lets go of the first bytes.
    pub fn skip(&mut self, count: usize)
        requires { count ≤ length self.old }
        ensures { self.new ≡ drop count self.old }
    {
        self.at += count;
    }

    // Gives up the places of bytes that were used, where all were.
    fn compact(&mut self)
        ensures { self.new ≡ self.old }
    {
        if self.at == self.bytes.len() {
            self.bytes.clear();
            self.at = 0;
        }
    }

    /// Holds a piece behind what is held.
    pub fn add(&mut self, piece: &[u8]) -> Result<(), AllocError>
        ensures added { OnOk result (self.new ≡ self.old ++ piece.now) }
        ensures same { OnErr result (self.new ≡ self.old) }
    {
        self.compact();
        self.bytes.extend_from_slice(piece)?;
        Ok(())
    }
}

/// Reads once from the link into the room, and holds what came. 0 is the end.
pub fn fill<L: Link>(link: &mut L, held: &mut Intake, room: &mut [u8]) -> Result<usize, Stop>
    requires { 0 < length room.old }
    ensures told { Hears (L.flow link.old) (L.flow link.new) held.old (Fills (L.flow link.new) held.old held.new result) }
    ensures count { IfOk result (λ count. length held.new ≡ length held.old + count) }
    ensures later { L.read_faults link.old ≤ L.read_faults link.new }
    ensures failed { IsErrOf result Stop.Read → Rose (L.read_faults link.old) (L.read_faults link.new) }
    ensures other { L.write_faults link.new ≡ L.write_faults link.old }
    ensures peer { L.peer link.new ≡ L.peer link.old }
{
    let count = match link.read(room) {
        Ok(count) => count,
        Err(_) => return Err(Stop::Read),
    };
    held.add(&room[..count])?;
    Ok(count)
}
