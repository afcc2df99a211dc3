// Lists of items, one behind another.
ghost use Rattle.std.specs.Prelude.{◌≡◌};
ghost use Rattle.journal_reader.specs.Reading.{Gives, ban_line_at, field_at, fields_at, item_at, items_at, list_at, member_at, quoted_at, state_at, texts_at, vcl_line_at};

use crate::cursor::Cursor;
use crate::fault::{Halt, Wanted};
use crate::keys::state_of;
use cache_law::{VaryItem, VclLine, VclState};
use directors::Member;
use http_heads::{Field, Fields};
use journal_text::ShownBan;
use std::alloc::Global;
use units::{Sequence, Text};

/// What a list of a line is made of.
pub(crate) trait Item: Drop {
    ghost use Rattle.std.specs.Prelude.{List};
    ghost use Rattle.journal_text.specs.declared.word.Word.{Word};
    ghost use Rattle.journal_reader.specs.Reading.{Read};

    /// What the words say.
    ghost one_at: { List Word → Read Self };

    fn read(cursor: &mut Cursor<'_>, alloc: Global) -> Result<Self, Halt>
        ensures { Gives result cursor.new (one_at cursor.old) };
}

/// So many items.
#[tactic(auto, unfolding(crate::specs::Reading::items_at))]
pub(crate) fn items<T: Item>(
    cursor: &mut Cursor<'_>,
    alloc: Global,
    count: u64,
) -> Result<Sequence<T>, Halt>
    ensures { Gives result cursor.new (items_at T.one_at count cursor.old) }
{
    let mut items = Vec::new(alloc);
    for _ in 0..count {
        items.push(T::read(cursor, alloc)?)?;
    }
    Ok(Sequence::from_vec(items))
}

/// A list, which is its length and its items.
#[tactic(auto, unfolding(crate::specs::Reading::list_at))]
pub(crate) fn list<T: Item>(cursor: &mut Cursor<'_>, alloc: Global) -> Result<Sequence<T>, Halt>
    ensures { Gives result cursor.new (list_at T.one_at cursor.old) }
{
    let count = cursor.long()?;
    items(cursor, alloc, count)
}

impl Item for Text {
    ghost use Rattle.journal_reader.specs.Reading.{quoted_at};

    ghost one_at = { quoted_at };

    fn read(cursor: &mut Cursor<'_>, _alloc: Global) -> Result<Self, Halt> {
        cursor.text()
    }
}

#[tactic(auto, unfolding(crate::specs::Reading::texts_at))]
pub(crate) fn texts(cursor: &mut Cursor<'_>, alloc: Global) -> Result<Sequence<Text>, Halt>
    ensures { Gives result cursor.new (texts_at cursor.old) }
{
    list(cursor, alloc)
}

impl Item for Field {
    ghost use Rattle.journal_reader.specs.Reading.{field_at};

    ghost one_at = { field_at };

    #[tactic(auto, unfolding(crate::specs::Reading::field_at))]
    fn read(cursor: &mut Cursor<'_>, _alloc: Global) -> Result<Self, Halt> {
        let name = cursor.text()?;
        let value = cursor.text()?;
        Ok(Field { name, value })
    }
}

/// The fields of a head.
#[tactic(auto, unfolding(crate::specs::Reading::fields_at))]
pub(crate) fn fields(cursor: &mut Cursor<'_>, alloc: Global) -> Result<Fields, Halt>
    ensures { Gives result cursor.new (fields_at cursor.old) }
{
    let fields: Sequence<Field> = list(cursor, alloc)?;
    Ok(Fields::from_vec(fields.into_vec()))
}

impl Item for VaryItem {
    ghost use Rattle.journal_reader.specs.Reading.{item_at};

    ghost one_at = { item_at };

    #[tactic(auto, unfolding(crate::specs::Reading::item_at))]
    fn read(cursor: &mut Cursor<'_>, alloc: Global) -> Result<Self, Halt> {
        let name = cursor.text()?;
        let values = texts(cursor, alloc)?;
        Ok(VaryItem { name, values })
    }
}

impl Item for Member {
    ghost use Rattle.journal_reader.specs.Reading.{member_at};

    ghost one_at = { member_at };

    #[tactic(auto, unfolding(crate::specs::Reading::member_at))]
    fn read(cursor: &mut Cursor<'_>, _alloc: Global) -> Result<Self, Halt> {
        let name = cursor.text()?;
        let weight = cursor.middle()?;
        Ok(Member { name, weight })
    }
}

impl Item for ShownBan {
    ghost use Rattle.journal_reader.specs.Reading.{ban_line_at};

    ghost one_at = { ban_line_at };

    #[tactic(auto, unfolding(crate::specs::Reading::ban_line_at))]
    fn read(cursor: &mut Cursor<'_>, _alloc: Global) -> Result<Self, Halt> {
        let number = cursor.long()?;
        let completed = cursor.truth()?;
        Ok(ShownBan { number, completed })
    }
}

#[tactic(auto, unfolding(crate::specs::Reading::state_at))]
fn state(cursor: &mut Cursor<'_>) -> Result<VclState, Halt>
    ensures { Gives result cursor.new (state_at cursor.old) }
{
    let found = state_of(cursor.key());
    cursor.named(Wanted::State, found)
}

impl Item for VclLine {
    ghost use Rattle.journal_reader.specs.Reading.{vcl_line_at};

    ghost one_at = { vcl_line_at };

    #[tactic(auto, unfolding(crate::specs::Reading::vcl_line_at))]
    fn read(cursor: &mut Cursor<'_>, _alloc: Global) -> Result<Self, Halt> {
        let state = state(cursor)?;
        let references = cursor.long()?;
        let name = cursor.text()?;
        Ok(VclLine {
            state,
            references,
            name,
        })
    }
}
