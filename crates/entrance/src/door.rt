// The door at which workers ask for connections.
ghost use Rattle.std.specs.Prelude.{◌≡◌, ◌+◌, ◌<◌, ◌≤◌, IfSome, IfNone, OnSome};
ghost use Rattle.entrance.specs.Arriving.{IsNew};
ghost use Rattle.wire.specs.Telling.{told_by};
ghost use Rattle.entrance.specs.Shutting.{Why};

use crate::accepting::Accepting;
use crate::quota::Quota;
use crate::remains::Remains;
use std::sync::ledger::{Blank, Ledger, Share};
use std::sync::{Mutex, Wait};
use world::{Awaited, Listener};

/// A listener under a lock, at which as many connections are accepted as the first ledger says, each by one worker. Workers
/// share the door by reference.
#[derive(Drop)]
pub struct Door<L: Listener, A: Quota, B: Ledger> {
    entrance: Mutex<Accepting<L, A, B>>,
}

impl<L: Listener, A: Quota, B: Ledger> Door<L, A, B> {
    /// A door before the listener, with two new books, and all the shares of these: in the first the accepted connections count,
    /// in the second the workers that find the door shut.
    pub fn open(
        listener: L,
        most: u64,
        accepted: Blank,
        left: Blank,
    ) -> (Door<L, A, B>, Share<A>, Share<B>)
        requires unused { L.given listener ≡ 0 }
        requires most { most ≡ A.most }
        requires accepted { (accepted.name ≡ A.name) × (accepted.parts ≡ A.parts) }
        requires left { (left.name ≡ B.name) × (left.parts ≡ B.parts) }
        ensures accepted { (result.1.parts ≡ A.parts) × (result.1.amount ≡ 0) }
        ensures left { (result.2.parts ≡ B.parts) × (result.2.amount ≡ 0) }
    {
        let (book, all) = accepted.open::<A>();
        let (leaving, everyone) = left.open::<B>();
        let entrance = Mutex::new(Accepting::new(listener, most, book, leaving));
        (Door { entrance }, all, everyone)
    }

    /// The next connection, and the address that it came from, if the door isn't shut. It counts in the worker's first share;
    /// that the door is shut counts in the second. Where nobody came yet the listener is asked again, and others may have the
    /// door's lock meanwhile.
    pub fn enter<R: Wait>(
        &self,
        rt: &R,
        accepted: &mut Share<A>,
        left: &mut Share<B>,
    ) -> Option<(L::Link, [u8; 4])>
        requires parts { (0 < accepted.old.parts) × (0 < left.old.parts) }
        ensures new { IfSome result (λ one. IsNew (told_by L.Link.flow L.Link.read_faults L.Link.write_faults L.Link.peer L.Link.is_open one.0) one.1) }
        ensures came { OnSome result ((accepted.new.amount ≡ accepted.old.amount + 1) × (left.new.amount ≡ left.old.amount)) }
        ensures shut { IfNone result ((accepted.new.amount ≡ accepted.old.amount) × (left.new.amount ≡ left.old.amount + 1)) }
        ensures parts { (accepted.new.parts ≡ accepted.old.parts) × (left.new.parts ≡ left.old.parts) }
    {
        'asking: for _ in rt.forever() {
            let found = self.entrance.lock(rt).next(accepted, left);
            match found {
                Awaited::Came(link, address) => return Some((link, address)),
                Awaited::NobodyYet => {}
                Awaited::End => return None,
            }
        }
        unreachable!()
    }

    /// Shuts the door, since a worker has no memory for another connection.
    pub fn give_up<R: Wait>(&self, rt: &R) {
        self.entrance.lock(rt).give_up();
    }

    /// Closes the door and its books. Whoever then has all the shares of a book has its total.
    pub fn close(self) -> Remains<L, A, B>
        ensures parts { (result.accepted.parts ≡ A.parts) × (result.left.parts ≡ B.parts) }
        ensures within { result.accepted.amount ≤ A.most }
        ensures given { L.given result.listener ≡ result.accepted.amount }
        ensures count { result.count ≡ result.accepted.amount }
        ensures why { Why result.reason A.most result.accepted.amount result.left.amount (L.faults result.listener) (L.ended result.listener) }
    {
        let Door { entrance } = self;
        entrance.into_inner().close()
    }
}
