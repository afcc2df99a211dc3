// The steps on the table, each with what it does to a seat.
ghost use Rattle.std.specs.Prelude.{◌≡◌, ◌≢◌, ◌⊎◌, ℕ, ◌+◌, ◌%◌, ◌^◌, ◌<◌, [], ◌∷◌, IsTrue, MatchBool, Some, None};
ghost use Rattle.turnstile.specs.Knowledge.{saw, cut_off, branch, merged, Grown, Leaves};
ghost use Rattle.turnstile.specs.Steps.{idle, waiting, inside, cutting, Taken, IsTaken};

use crate::chronicle::Chronicle;
use crate::knowledge::View;
use crate::lock::Turnstile;
use crate::rule::{Cut, Draw, Leave, Look, Merge, Note, PassOn, Tell};
use atomic_table::Seat;

pub(crate) type Place<T> = Seat<
    Option<T>,
    View<<T as Chronicle>::Entry, <T as Chronicle>::Setting>,
>;

// The next ticket.
const TICKET: usize = 0;

// The ticket that is served.
const SERVING: usize = 1;

// The one slot.
const VALUE: usize = 0;

impl<T: Chronicle> Turnstile<T> {
    // Whether nobody has a ticket, as far as one can tell.
    pub(crate) fn is_free(&self) -> bool {
        self.table.shared.peek(TICKET) == self.table.shared.peek(SERVING)
    }

    // Draws a ticket.
    pub(crate) fn draw(&self, seat: &mut Place<T>) -> u64
        requires table { seat.old.table_id ≡ self.now.table.shared.table_id }
        requires idle { seat.old.me ≡ (idle seat.old.me.0.known, []) }
        ensures same { (seat.new.table_id ≡ seat.old.table_id) × (seat.new.id ≡ seat.old.id) }
        ensures drawn { (t : ℕ) × (result ≡ t % 2 ^ 64) × (seat.new.me ≡ (waiting seat.old.me.0.known t, [])) }
    {
        self.table.shared.fetch_add::<Draw<T>>(seat, TICKET, 1)
    }

    // Whether the ticket is served. Then the seat has the slot with the value.
    pub(crate) fn look(&self, seat: &mut Place<T>, ticket: u64) -> bool
        requires table { seat.old.table_id ≡ self.now.table.shared.table_id }
        requires waits { (t : ℕ) × (ticket ≡ t % 2 ^ 64) × (seat.old.me ≡ (waiting seat.old.me.0.known t, [])) }
        ensures same { (seat.new.table_id ≡ seat.old.table_id) × (seat.new.id ≡ seat.old.id) }
        ensures looked { MatchBool result (IsTaken T.caller T.history T.setting T.Sound seat.old.me.0.known seat.new.me) (seat.new.me ≡ seat.old.me) }
    {
        self.table.shared.load::<Look<T>>(seat, SERVING) == ticket
    }

    // Takes the value out of the slot.
    pub(crate) fn take(&self, seat: &mut Place<T>) -> T
        requires table { seat.old.table_id ≡ self.now.table.shared.table_id }
        requires has { (t : ℕ) × (x : T) × (seat.old.me ≡ (inside seat.old.me.0.known t, (0, Some x) ∷ [])) }
        ensures same { (seat.new.table_id ≡ seat.old.table_id) × (seat.new.id ≡ seat.old.id) }
        ensures took { (t : ℕ) × (seat.old.me ≡ (inside seat.old.me.0.known t, (0, Some result) ∷ [])) × (seat.new.me ≡ (inside seat.old.me.0.known t, (0, None) ∷ [])) }
    {
        let found = self.table.shared.exchange(seat, VALUE, None);
        let Some(value) = found else { unreachable!() };
        value
    }

    // Puts the value back and passes the turn on.
    pub(crate) fn put(&self, seat: &mut Place<T>, value: T)
        requires table { seat.old.table_id ≡ self.now.table.shared.table_id }
        requires empty { (t : ℕ) × (seat.old.me ≡ (inside seat.old.me.0.known t, (0, None) ∷ [])) }
        requires setting { seat.old.me.0.known.setting ≡ Some (T.setting value) }
        requires sound { T.Sound value }
        requires history { Leaves T.caller seat.old.me.0.known (T.history value) }
        ensures same { (seat.new.table_id ≡ seat.old.table_id) × (seat.new.id ≡ seat.old.id) }
        ensures passed { seat.new.me ≡ (idle (saw seat.old.me.0.known (T.history value)), []) }
    {
        let empty = self.table.shared.exchange(seat, VALUE, Some(value));
        let None = empty else { unreachable!() };
        self.table.shared.fetch_add::<PassOn<T>>(seat, SERVING, 1);
    }

    // Gives the empty slot home and keeps the turn.
    pub(crate) fn leave(&self, seat: &mut Place<T>)
        requires table { seat.old.table_id ≡ self.now.table.shared.table_id }
        requires empty { (t : ℕ) × (seat.old.me ≡ (inside seat.old.me.0.known t, (0, None) ∷ [])) }
        ensures same { (seat.new.table_id ≡ seat.old.table_id) × (seat.new.id ≡ seat.old.id) }
        ensures left { seat.new.me ≡ (seat.old.me.0, []) }
    {
        self.table.shared.load::<Leave<T>>(seat, SERVING);
    }

    // Splits off a number with the span from it upwards.
    pub(crate) fn cut(&self, seat: &mut Place<T>, caller: u32) -> Place<T>
        requires table { seat.old.table_id ≡ self.now.table.shared.table_id }
        requires idle { seat.old.me ≡ (idle seat.old.me.0.known, []) }
        requires above { seat.old.me.0.known.number < caller }
        requires within { caller < seat.old.me.0.known.upto }
        ensures same { (seat.new.table_id ≡ seat.old.table_id) × (result.table_id ≡ seat.old.table_id) }
        ensures cut { (seat.new.me ≡ (idle (cut_off seat.old.me.0.known caller), [])) × (result.me ≡ (idle (branch seat.old.me.0.known caller), [])) }
    {
        let number = u64::from(caller);
        self.table
            .shared
            .compare_exchange::<Note<T>>(seat, TICKET, number, number);
        self.table.shared.split_seat::<Cut>(seat)
    }

    // Takes in another seat.
    pub(crate) fn merge(&self, seat: &mut Place<T>, other: Place<T>)
        requires table { (seat.old.table_id ≡ self.now.table.shared.table_id) × (other.table_id ≡ self.now.table.shared.table_id) }
        requires idle { (seat.old.me ≡ (idle seat.old.me.0.known, [])) × (other.me ≡ (idle other.me.0.known, [])) }
        ensures same { seat.new.table_id ≡ seat.old.table_id }
        ensures merged { seat.new.me ≡ (idle (merged T.caller seat.old.me.0.known other.me.0.known), []) }
        ensures grown { Grown T.caller seat.old.me.0.known seat.new.me.0.known.seen × Grown T.caller other.me.0.known seat.new.me.0.known.seen }
    {
        self.table.shared.join_seat::<Merge<T>>(seat, other);
        self.table.shared.load::<Tell<T>>(seat, TICKET);
    }
}
