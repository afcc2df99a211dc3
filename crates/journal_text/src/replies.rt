// The words of what is shown of a reply.
ghost use Rattle.std.specs.Prelude.{◌≡◌, ◌++◌, ◌∷◌, [], true, length, OnOk};
ghost use Rattle.std.specs.List.{flat_map};
ghost use Rattle.journal_text.specs.declared.shown.Shown.TheVariants as shown;
ghost use Rattle.journal_text.specs.declared.word.Word.TheVariants.{Key, Long};
ghost use Rattle.journal_text.specs.Words.{is_key};
ghost use Rattle.journal_text.specs.Grammar.{ban_line_words, state_key, vcl_line_words, numbered, number_or_absent, shown_words};

use crate::words::Words;
use crate::{Shown, ShownBan};
use cache_law::{VclLine, VclState};
use std::alloc::{AllocError, Global};
use units::Text;

fn put_ban_line(words: &mut Words, ban: &ShownBan) -> Result<(), AllocError>
    ensures { OnOk result (words.new ≡ words.old ++ ban_line_words ban.now) }
{
    words.long(ban.number)?;
    words.truth(ban.completed)
}

fn put_ban_lines(words: &mut Words, bans: &[ShownBan]) -> Result<(), AllocError>
    ensures { OnOk result (words.new ≡ words.old ++ Long (length bans.now) ∷ flat_map ban_line_words bans.now) }
{
    words.long(bans.len() as u64)?;
    for ban in bans {
        put_ban_line(words, ban)?;
    }
    Ok(())
}

fn put_state(words: &mut Words, alloc: Global, state: VclState) -> Result<(), AllocError>
    ensures { OnOk result (words.new ≡ words.old ++ Key (state_key state) ∷ []) }
{
    match state {
        VclState::Active => words.key(alloc, b"active"),
        VclState::Available => words.key(alloc, b"available"),
        VclState::Discarded => words.key(alloc, b"discarded"),
    }
}

fn put_vcl_line(words: &mut Words, alloc: Global, line: &VclLine) -> Result<(), AllocError>
    ensures { OnOk result (words.new ≡ words.old ++ vcl_line_words line.now) }
{
    put_state(words, alloc, line.state)?;
    words.long(line.references)?;
    words.quoted(&line.name)
}

fn put_vcl_lines(words: &mut Words, alloc: Global, lines: &[VclLine]) -> Result<(), AllocError>
    ensures { OnOk result (words.new ≡ words.old ++ Long (length lines.now) ∷ flat_map vcl_line_words lines.now) }
{
    words.long(lines.len() as u64)?;
    for line in lines {
        put_vcl_line(words, alloc, line)?;
    }
    Ok(())
}

// A key, and a number behind it.
fn put_numbered(words: &mut Words, alloc: Global, key: &[u8], number: u64) -> Result<(), AllocError>
    requires { is_key key.now ≡ true }
    ensures { OnOk result (words.new ≡ words.old ++ numbered key.now number) }
{
    words.key(alloc, key)?;
    words.long(number)
}

// A key, a number, and one that may be absent.
fn put_two(
    words: &mut Words,
    alloc: Global,
    key: &[u8],
    number: u64,
    other: Option<u64>,
) -> Result<(), AllocError>
    requires { is_key key.now ≡ true }
    ensures { OnOk result (words.new ≡ words.old ++ Key key.now ∷ Long number ∷ number_or_absent other ∷ []) }
{
    words.key(alloc, key)?;
    words.long(number)?;
    words.number_or_absent(alloc, other)
}

fn put_began(words: &mut Words, alloc: Global, number: u64, vcl: u32) -> Result<(), AllocError>
    ensures { OnOk result (words.new ≡ words.old ++ shown_words (shown.Began number vcl)) }
{
    words.key(alloc, b"began")?;
    words.long(number)?;
    words.middle(vcl)
}

fn put_picked(words: &mut Words, alloc: Global, name: &Option<Text>) -> Result<(), AllocError>
    ensures { OnOk result (words.new ≡ words.old ++ shown_words (shown.Picked name.now)) }
{
    words.key(alloc, b"picked")?;
    words.text_or_absent(alloc, name)
}

fn put_bans(words: &mut Words, alloc: Global, bans: &[ShownBan]) -> Result<(), AllocError>
    ensures { OnOk result (words.new ≡ words.old ++ shown_words (shown.Bans bans.now)) }
{
    words.key(alloc, b"bans")?;
    put_ban_lines(words, bans)
}

fn put_vcls(words: &mut Words, alloc: Global, lines: &[VclLine]) -> Result<(), AllocError>
    ensures { OnOk result (words.new ≡ words.old ++ shown_words (shown.Vcls lines.now)) }
{
    words.key(alloc, b"vcls")?;
    put_vcl_lines(words, alloc, lines)
}

fn put_is_set(words: &mut Words, alloc: Global, is_set: bool) -> Result<(), AllocError>
    ensures { OnOk result (words.new ≡ words.old ++ shown_words (shown.HealthSet is_set)) }
{
    words.key(alloc, b"healthset")?;
    words.truth(is_set)
}

fn put_loaded(words: &mut Words, alloc: Global, number: u32) -> Result<(), AllocError>
    ensures { OnOk result (words.new ≡ words.old ++ shown_words (shown.Loaded number)) }
{
    words.key(alloc, b"loaded")?;
    words.middle(number)
}

/// The words of what is shown of a reply.
pub(crate) fn put_shown(words: &mut Words, alloc: Global, reply: &Shown) -> Result<(), AllocError>
    ensures { OnOk result (words.new ≡ words.old ++ shown_words reply.now) }
{
    match reply {
        Shown::Began { number, vcl } => put_began(words, alloc, *number, *vcl),
        Shown::NoRound => words.key(alloc, b"noround"),
        Shown::Drawn(number) => put_numbered(words, alloc, b"drawn", *number),
        Shown::Hit(number) => put_numbered(words, alloc, b"hit", *number),
        Shown::HitMiss(token) => put_numbered(words, alloc, b"hitmiss", *token),
        Shown::HitPass => words.key(alloc, b"hitpass"),
        Shown::Grace { number, token } => put_two(words, alloc, b"grace", *number, *token),
        Shown::Wait(token) => put_numbered(words, alloc, b"wait", *token),
        Shown::Miss { token, stale } => put_two(words, alloc, b"miss", *token, *stale),
        Shown::Picked(name) => put_picked(words, alloc, name),
        Shown::Stored(number) => put_numbered(words, alloc, b"stored", *number),
        Shown::NotOpen => words.key(alloc, b"notopen"),
        Shown::StaleGone => words.key(alloc, b"stalegone"),
        Shown::NotInTime => words.key(alloc, b"notintime"),
        Shown::NoRoom => words.key(alloc, b"noroom"),
        Shown::Refused => words.key(alloc, b"refused"),
        Shown::Banned => words.key(alloc, b"banned"),
        Shown::Bans(bans) => put_bans(words, alloc, bans.as_slice()),
        Shown::Purged(count) => put_numbered(words, alloc, b"purged", *count),
        Shown::HealthSet(is_set) => put_is_set(words, alloc, *is_set),
        Shown::Loaded(number) => put_loaded(words, alloc, *number),
        Shown::NameTaken => words.key(alloc, b"nametaken"),
        Shown::Switched => words.key(alloc, b"switched"),
        Shown::NoVcl => words.key(alloc, b"novcl"),
        Shown::Discarded => words.key(alloc, b"discarded"),
        Shown::IsActive => words.key(alloc, b"isactive"),
        Shown::Vcls(lines) => put_vcls(words, alloc, lines.as_slice()),
        Shown::Dropped => words.key(alloc, b"dropped"),
        Shown::Ended => words.key(alloc, b"ended"),
    }
}
