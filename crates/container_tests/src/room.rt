// Steps on members by their last use: `put USED HANDLE SIZE END`, `take USED`, `drop USES`, `get USED`, `use USED LATER`,
// `end USED END`, `ends USED END USED END`, `total`, `expired MOMENT` and `out ROOM SIZE` or `out ROOM SIZE BUT`.
ghost use Rattle.std.specs.Prelude.{IfSome};
ghost use Rattle.room_lru.specs.Endings.{IsEnding};

use crate::steps::Container;
use crate::words::{first_word, number, numbers, say_numbers};
use room_lru::{Ending, Member, RoomLru};
use std::alloc::{AllocError, Global};

impl Container for RoomLru {
    fn say_step(&mut self, alloc: Global, step: &str, out: &mut String) -> Result<(), AllocError> {
        let (word, rest) = first_word(step);
        match word {
            "put" => put(self, rest, out),
            "take" => say_member(self.take(number(rest)), out),
            "get" => say_member(self.get(number(rest)), out),
            "drop" => {
                self.drop_all(numbers(alloc, rest)?.as_slice());
                out.push_str("dropped")
            }
            "use" => move_use(self, rest, out),
            "end" => move_end(self, rest, out),
            "ends" => move_ends(self, rest, out),
            "total" => write!(out, "{}", self.total()),
            "expired" => match self.expired(number(rest)) {
                Some(handle) => write!(out, "{handle}"),
                None => out.push_str("none"),
            },
            "out" => say_least_out(alloc, self, rest, out),
            _ => out.push_str("no such step"),
        }
    }
}

fn put(room: &mut RoomLru, rest: &str, out: &mut String) -> Result<(), AllocError> {
    let (used, rest) = first_word(rest);
    let (handle, rest) = first_word(rest);
    let (size, end) = first_word(rest);
    let used = number(used);
    let member = Member {
        handle: number(handle),
        size: number(size),
        end: signed(end),
    };
    if !room.is_latest(used) {
        return out.push_str("not latest");
    }
    if !room.is_free(member.end, member.handle) {
        return out.push_str("not free");
    }
    if member.size > u64::MAX - room.total() {
        return out.push_str("too large");
    }
    room.put_last(used, member)?;
    out.push_str("put")
}

fn say_member(member: Option<Member>, out: &mut String) -> Result<(), AllocError> {
    match member {
        Some(member) => write!(out, "{} {} {}", member.handle, member.size, member.end),
        None => out.push_str("none"),
    }
}

fn move_use(room: &mut RoomLru, rest: &str, out: &mut String) -> Result<(), AllocError> {
    let (used, later) = first_word(rest);
    let later = number(later);
    if !room.is_latest(later) {
        return out.push_str("not latest");
    }
    room.move_use(number(used), later)?;
    out.push_str("used")
}

fn move_end(room: &mut RoomLru, rest: &str, out: &mut String) -> Result<(), AllocError> {
    let (used, end) = first_word(rest);
    let used = number(used);
    let end = signed(end);
    let Some(member) = room.get(used) else {
        return out.push_str("none");
    };
    if !room.is_free(end, member.handle) {
        return out.push_str("not free");
    }
    room.move_end(used, end)?;
    out.push_str("ends")
}

fn move_ends(room: &mut RoomLru, rest: &str, out: &mut String) -> Result<(), AllocError> {
    let (used, rest) = first_word(rest);
    let (end, rest) = first_word(rest);
    let (other, other_end) = first_word(rest);
    let Some(one) = ending(room, number(used), signed(end)) else {
        return out.push_str("none or not free");
    };
    let Some(two) = ending(room, number(other), signed(other_end)) else {
        return out.push_str("none or not free");
    };
    if one.used == two.used {
        return out.push_str("one member");
    }
    if one.handle == two.handle {
        return out.push_str("one handle");
    }
    room.move_ends(&[one, two])?;
    out.push_str("end")
}

// The member of the last use, with an end that none of its handle has.
fn ending(room: &RoomLru, used: u64, end: i128) -> Option<Ending>
    ensures { IfSome result (IsEnding room.now) }
{
    let member = room.get(used)?;
    if !room.is_free(end, member.handle) {
        return None;
    }
    Some(Ending {
        used,
        handle: member.handle,
        end: member.end,
        new_end: end,
    })
}

fn say_least_out(
    alloc: Global,
    room: &RoomLru,
    rest: &str,
    out: &mut String,
) -> Result<(), AllocError> {
    let (most, rest) = first_word(rest);
    let (size, but) = first_word(rest);
    match room.least_out(alloc, but.parse().ok(), number(most), number(size))? {
        Some(handles) => say_numbers(out, handles.as_slice()),
        None => out.push_str("no room"),
    }
}

// The number that the word writes, which may be below 0, or 0.
fn signed(word: &str) -> i128 {
    word.parse().unwrap_or(0)
}
