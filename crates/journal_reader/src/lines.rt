// Lines.
ghost use Rattle.std.specs.Prelude.{◌≡◌};
ghost use Rattle.journal_reader.specs.Reading.{Gives, entry_line_at, first_at, first_line_at, line_at, said_at};

use crate::calls::call;
use crate::cursor::Cursor;
use crate::fault::{Halt, Wanted};
use crate::items::texts;
use crate::keys::mark_of;
use crate::replies::reply;
use cache_law::Boot;
use journal_text::{First, Line, Said};
use std::alloc::Global;

#[tactic(auto, unfolding(crate::specs::Reading::said_at))]
fn said(cursor: &mut Cursor<'_>, alloc: Global) -> Result<Said, Halt>
    ensures { Gives result cursor.new (said_at cursor.old) }
{
    let caller = cursor.middle()?;
    let moment = cursor.long()?;
    let call = call(cursor, alloc)?;
    cursor.equals()?;
    let reply = reply(cursor, alloc)?;
    Ok(Said {
        caller,
        moment,
        call,
        reply,
    })
}

#[tactic(auto, unfolding(crate::specs::Reading::first_at))]
fn first(cursor: &mut Cursor<'_>, alloc: Global) -> Result<First, Halt>
    ensures { Gives result cursor.new (first_at cursor.old) }
{
    cursor.long()?;
    let room = cursor.long()?;
    let history = cursor.long()?;
    let text = cursor.text()?;
    let backends = texts(cursor, alloc)?;
    Ok(First {
        room,
        history,
        boot: Boot { text, backends },
    })
}

#[tactic(auto, unfolding(crate::specs::Reading::first_line_at))]
fn first_line(cursor: &mut Cursor<'_>, alloc: Global) -> Result<Line, Halt>
    ensures { Gives result cursor.new (first_line_at cursor.old) }
{
    let first = first(cursor, alloc)?;
    Ok(Line::First(first))
}

#[tactic(auto, unfolding(crate::specs::Reading::entry_line_at))]
fn entry_line(cursor: &mut Cursor<'_>, alloc: Global) -> Result<Line, Halt>
    ensures { Gives result cursor.new (entry_line_at cursor.old) }
{
    let said = said(cursor, alloc)?;
    Ok(Line::Entry(said))
}

/// The line that words say, its ban without conditions; what stands behind it is not looked at.
#[tactic(auto, unfolding(crate::specs::Reading::line_at))]
pub(crate) fn line(cursor: &mut Cursor<'_>, alloc: Global) -> Result<Line, Halt>
    ensures { Gives result cursor.new (line_at cursor.old) }
{
    let key = cursor.key();
    if key == b"e".as_slice() {
        cursor.skip();
        entry_line(cursor, alloc)
    } else if key == b"varn".as_slice() {
        cursor.skip();
        first_line(cursor, alloc)
    } else {
        let found = mark_of(key);
        cursor.named(Wanted::Line, found)
    }
}
