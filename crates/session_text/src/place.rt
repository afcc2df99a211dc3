// Where in a session a reader is, and what a line does there.
ghost use Rattle.std.specs.Prelude.{◌≡◌, ◌≤◌, ◌<◌, ◌+◌, ◌-◌, ◌∷◌, [], ℕ, IfOk, SomeIff, nat_lt, if◌then◌else◌};
ghost use Rattle.std.specs.Option.{is_some};
ghost use Rattle.session_text.specs.Lines.{text_line, size};
ghost use Rattle.session_text.specs.Sessions.{first_place, session_limit, moment_after, numbered, On, Stop};
ghost use Rattle.session_text.specs.Commands.{IsLineOf};
ghost use Rattle.session_text.specs.Turns.{step_with, IsTurn, IsShort, SaysNothing, SaysOnly};
ghost use Rattle.session_text.specs.declared.session.Line.{Line};

use crate::SESSION_LIMIT;
use crate::command::Command;
use crate::lines::{NextLine, content_of};
use crate::reading::{LineReading, read_line};
use crate::session::FaultKind;

/// A place between two lines.
#[derive(Clone, Copy)]
pub struct Place {
    /// The number of the next line, from 1 on.
    pub number: u32,
    /// How many bytes more a session may have.
    pub room: usize,
    /// The moment that the last `at` named.
    pub moment: u64,
    /// The line of the `end`, where it has come.
    pub end: Option<u32>,
}

impl Place {
    /// The place at which a text begins.
    pub fn first() -> Place
        ensures { result ≡ first_place }
    {
        Place {
            number: 1,
            room: SESSION_LIMIT,
            moment: 0,
            end: None,
        }
    }
}

/// What a line does at a place.
#[derive(Clone, Copy)]
pub enum Turn<'a> {
    /// It says nothing for a player, and this place is behind it.
    Passes(Place),
    /// The line of this number says this, and this place is behind it.
    Gives(u32, Command<'a>, Place),
    Stops(FaultKind),
}

/// What a line does at a place.
pub fn take_line(place: Place, next: NextLine<'_>) -> Turn<'_>
    requires some { 0 < size (text_line next.body.now next.ended) }
    requires small { place.number + place.room ≤ session_limit + 1 }
    ensures turn { IsTurn place (text_line next.entry.body.now next.entry.ended) result }
    ensures small { IsShort result }
{
    let Some(room) = room_behind(place.room, next.body, next.ended) else {
        return Turn::Stops(FaultKind::Argument);
    };
    let behind = Place {
        number: place.number + 1,
        room,
        moment: place.moment,
        end: place.end,
    };
    match read_line(content_of(next.body, next.ended)) {
        LineReading::Passed => Turn::Passes(behind),
        LineReading::End => turn_of_end(place, behind),
        LineReading::Says(command) => {
            let moment = moment_behind(place.moment, &command);
            turn_of_line(place, behind, moment, command)
        }
        LineReading::Bad(kind) => Turn::Stops(kind),
    }
}

// How many bytes more there may be behind a line. None where the line passes the limit.
fn room_behind(room: usize, body: &[u8], ended: bool) -> Option<usize>
    ensures { SomeIff result (size (text_line body.now ended) ≤ room) (room - size (text_line body.now ended)) }
{
    let left = room.checked_sub(body.len())?;
    if ended {
        left.checked_sub(1)
    } else {
        Some(left)
    }
}

// `end` comes once.
fn turn_of_end(place: Place, behind: Place) -> Turn<'static>
    ensures step { (says : Line) → step_with says result ≡ (if is_some place.end then Stop FaultKind.After else On [] (record behind { end = Some place.number })) }
    ensures alone { SaysNothing result }
    ensures small { behind.number + behind.room ≤ session_limit + 1 → IsShort result }
{
    match place.end {
        Some(_) => Turn::Stops(FaultKind::After),
        None => Turn::Passes(Place {
            number: behind.number,
            room: behind.room,
            moment: behind.moment,
            end: Some(place.number),
        }),
    }
}

// A line is said before `end`, and at no earlier moment.
fn turn_of_line<'a>(place: Place, behind: Place, moment: u64, command: Command<'a>) -> Turn<'a>
    ensures step { (says : Line) → step_with says result ≡ (if nat_lt moment place.moment then Stop FaultKind.Moment else (if is_some place.end then Stop FaultKind.After else On (numbered place.number says ∷ []) (record behind { moment = moment }))) }
    ensures given { SaysOnly command.entry result }
    ensures small { behind.number + behind.room ≤ session_limit + 1 → IsShort result }
{
    if moment < place.moment {
        return Turn::Stops(FaultKind::Moment);
    }
    if place.end.is_some() {
        return Turn::Stops(FaultKind::After);
    }
    let next = Place {
        number: behind.number,
        room: behind.room,
        moment,
        end: behind.end,
    };
    Turn::Gives(place.number, command, next)
}

fn moment_behind(moment: u64, command: &Command<'_>) -> u64
    ensures { (says : Line) → IsLineOf command.now says → result ≡ moment_after moment says }
{
    match command {
        Command::At(later) => *later,
        _ => moment,
    }
}
