// How threads wait for their turns, and wake those who wait. A thread looks a few times before it sleeps. While somebody
// has a ticket, others wait in the lobby and draw none: so a few threads, which run, pass the turn among them, and the
// others sleep until nobody else wants it.
ghost use Rattle.std.specs.Prelude.{◌≡◌, ℕ, ◌%◌, ◌^◌, [], MatchBool};
ghost use Rattle.turnstile.specs.Steps.{waiting, IsTaken};

use crate::chronicle::Chronicle;
use crate::lock::Turnstile;
use crate::steps::Place;
use std::hint::spin_loop;
use std::sync::Wait;
use std::sync::atomic::Ordering::SeqCst;

// How often a thread looks before it sleeps.
const LOOKS: u32 = 100;

impl<T: Chronicle> Turnstile<T> {
    // Waits until nobody has a ticket, or until it is called.
    pub(crate) fn enter<R: Wait>(&self, rt: &R) {
        for _ in 0..LOOKS {
            if self.is_free() {
                return;
            }
            spin_loop();
        }
        let heard = self.lobby.lie_down();
        // From here on whoever passes the turn on to nobody calls this thread.
        self.called.store(0, SeqCst);
        if self.is_free() {
            self.lobby.rise();
        } else {
            self.lobby.sleep(rt, heard);
            self.called.store(0, SeqCst);
        }
    }

    // Wakes whoever waits with a ticket, or calls a thread from the lobby where nobody has one.
    pub(crate) fn call_next(&self) {
        self.line.ring_all();
        if self.lobby.has_sleepers() && self.is_free() && self.called.swap(1, SeqCst) == 0 {
            self.lobby.ring_one();
        }
    }

    // Waits until the ticket is served.
    pub(crate) fn wait<R: Wait>(&self, rt: &R, seat: &mut Place<T>, ticket: u64)
        requires table { seat.old.table_id ≡ self.now.table.shared.table_id }
        requires waits { (t : ℕ) × (ticket ≡ t % 2 ^ 64) × (seat.old.me ≡ (waiting seat.old.me.0.known t, [])) }
        ensures same { seat.new.table_id ≡ seat.old.table_id }
        ensures taken { IsTaken T.caller T.history T.setting T.Sound seat.old.me.0.known seat.new.me }
    {
        if !self.look_often(seat, ticket) {
            self.look_asleep(rt, seat, ticket);
        }
    }

    // A short wait, without sleep. False where the ticket wasn't served in that time.
    fn look_often(&self, seat: &mut Place<T>, ticket: u64) -> bool
        requires table { seat.old.table_id ≡ self.now.table.shared.table_id }
        requires waits { (t : ℕ) × (ticket ≡ t % 2 ^ 64) × (seat.old.me ≡ (waiting seat.old.me.0.known t, [])) }
        ensures same { seat.new.table_id ≡ seat.old.table_id }
        ensures looked { MatchBool result (IsTaken T.caller T.history T.setting T.Sound seat.old.me.0.known seat.new.me) (seat.new.me ≡ seat.old.me) }
    {
        'looks: for _ in 0..LOOKS {
            if self.look(seat, ticket) {
                return true;
            }
            spin_loop();
        }
        false
    }

    // A long wait, asleep.
    fn look_asleep<R: Wait>(&self, rt: &R, seat: &mut Place<T>, ticket: u64)
        requires table { seat.old.table_id ≡ self.now.table.shared.table_id }
        requires waits { (t : ℕ) × (ticket ≡ t % 2 ^ 64) × (seat.old.me ≡ (waiting seat.old.me.0.known t, [])) }
        ensures same { seat.new.table_id ≡ seat.old.table_id }
        ensures taken { IsTaken T.caller T.history T.setting T.Sound seat.old.me.0.known seat.new.me }
    {
        'looks: for _ in rt.forever() {
            let heard = self.line.lie_down();
            if self.look(seat, ticket) {
                self.line.rise();
                return;
            }
            self.line.sleep(rt, heard);
        }
        unreachable!()
    }
}
