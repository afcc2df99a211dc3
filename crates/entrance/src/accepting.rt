// What stands under the door's lock.
ghost use Rattle.std.specs.Prelude.{◌≡◌, ◌<◌, ◌≤◌, true};
ghost use Rattle.world.specs.Awaiting.{IfCame};
ghost use Rattle.entrance.specs.Arriving.{IsNew, Counts};
ghost use Rattle.wire.specs.Telling.{told_by};
ghost use Rattle.entrance.specs.Shutting.{Why, is_shut};

use crate::quota::Quota;
use crate::remains::{Reason, Remains};
use std::sync::ledger::{Book, Ledger, Share};
use world::{Awaited, Listener};

/// A listener and what was accepted at it, up to a number of connections. Each of them counts in a worker's share of the first
/// book, and each worker that found the entrance shut in a share of the second.
#[derive(Drop)]
pub(crate) struct Accepting<L: Listener, A: Quota, B: Ledger> {
    pub listener: L,
    pub most: u64,
    pub count: u64,
    pub ended: bool,
    pub failed: bool,
    pub wanting: bool,
    pub accepted: Book<A>,
    pub left: Book<B>,
    ghost most_is: { most ≡ A.most },
    ghost counted: { count ≡ accepted.total },
    ghost within: { count ≤ most },
    ghost given: { L.given listener ≡ count },
    ghost said_its_end: { ended ≡ true → L.ended listener ≡ true },
    ghost had_a_fault: { failed ≡ true → 1 ≤ L.faults listener },
    ghost shut: { 1 ≤ left.total → is_shut count most ended failed wanting ≡ true },
}

impl<L: Listener, A: Quota, B: Ledger> Accepting<L, A, B> {
    pub fn new(listener: L, most: u64, accepted: Book<A>, left: Book<B>) -> Accepting<L, A, B>
        requires unused { L.given listener ≡ 0 }
        requires most { most ≡ A.most }
        requires accepted { accepted.total ≡ 0 }
        requires left { left.total ≡ 0 }
    {
        Accepting {
            listener,
            most,
            count: 0,
            ended: false,
            failed: false,
            wanting: false,
            accepted,
            left,
        }
    }

    fn is_shut(&self) -> bool
        ensures { result ≡ is_shut self.now.count self.now.most self.now.ended self.now.failed self.now.wanting }
    {
        self.count == self.most || self.ended || self.failed || self.wanting
    }

    /// The next connection, and the address that it came from, if one comes in time. It counts in the first share; at the end the
    /// entrance is shut, which counts in the second.
    pub fn next(&mut self, accepted: &mut Share<A>, left: &mut Share<B>) -> Awaited<L::Link>
        requires parts { (0 < accepted.old.parts) × (0 < left.old.parts) }
        ensures new { IfCame result (λ link address. IsNew (told_by L.Link.flow L.Link.read_faults L.Link.write_faults L.Link.peer L.Link.is_open link) address) }
        ensures counts { Counts result accepted.old.amount accepted.new.amount left.old.amount left.new.amount }
        ensures parts { (accepted.new.parts ≡ accepted.old.parts) × (left.new.parts ≡ left.old.parts) }
        ensures wanting { self.new.wanting ≡ self.old.wanting }
    {
        if !self.is_shut() {
            match self.listener.accept() {
                Ok(Awaited::Came(link, address)) => {
                    self.accepted.add(accepted, 1);
                    self.count += 1;
                    return Awaited::Came(link, address);
                }
                Ok(Awaited::NobodyYet) => return Awaited::NobodyYet,
                Ok(Awaited::End) => self.ended = true,
                Err(_) => self.failed = true,
            }
        }
        self.left.add(left, 1);
        Awaited::End
    }

    /// Shuts the entrance, since a worker has no memory for another connection.
    pub fn give_up(&mut self) {
        self.wanting = true;
    }

    // Why no more were accepted.
    fn reason(&self) -> Option<Reason>
        ensures { Why result self.now.most self.now.count self.now.left.total (L.faults self.now.listener) (L.ended self.now.listener) }
    {
        if self.failed {
            return Some(Reason::Failed);
        }
        if self.count == self.most {
            return Some(Reason::Full);
        }
        if self.ended {
            return Some(Reason::Ended);
        }
        if self.wanting {
            return Some(Reason::NoMemory);
        }
        None
    }

    /// Closes both books.
    pub fn close(self) -> Remains<L, A, B>
        ensures parts { (result.accepted.parts ≡ A.parts) × (result.left.parts ≡ B.parts) }
        ensures within { result.accepted.amount ≤ A.most }
        ensures given { L.given result.listener ≡ result.accepted.amount }
        ensures count { result.count ≡ result.accepted.amount }
        ensures why { Why result.reason A.most result.accepted.amount result.left.amount (L.faults result.listener) (L.ended result.listener) }
    {
        let reason = self.reason();
        let Accepting {
            listener,
            most: _,
            count,
            ended: _,
            failed: _,
            wanting: _,
            accepted,
            left,
        } = self;
        Remains {
            listener,
            count,
            accepted: accepted.close(),
            left: left.close(),
            reason,
        }
    }
}
