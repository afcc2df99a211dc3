// What lines of a list of bans do.
ghost use Rattle.std.specs.Prelude.{◌≡◌, ◌↔◌, ℕ, true, IsTrue};
ghost use Rattle.std.specs.List.{AllByRecursion, list_any};
ghost use Rattle.cache_law.specs.Bans.{is_shown, stands_for as works_for};
ghost use Rattle.cache_law.specs.ShownBans.{has_newer as newer_is_there, those_open};
ghost use Rattle.ban_lines.specs.Lines.{does_work, is_in_order, is_newer_equal};

use crate::equality::{is_equal, is_lasting};
use cache_law::{Ban, BanLine, Issued};

/// Whether the line's ban does the work of the ban that was issued under this number.
#[tactic(auto, unfolding(cache_law::specs::Bans::stands_for))]
fn stands_for(number: u64, ban: &Ban, line: &Issued) -> bool
    ensures { (moment : ℕ) → result ≡ works_for (record { number = number; moment = moment; ban = ban.now }) line.now }
{
    if is_lasting(ban) {
        return is_lasting(&line.ban) && line.number == number;
    }
    is_equal(&line.ban, ban)
}

/// Whether the line, which isn't marked as completed, does the work of the ban and isn't older.
fn shows_as(number: u64, ban: &Ban, line: &BanLine) -> bool
    ensures { result ≡ does_work (record { number = number; moment = 0; ban = ban.now }) line.now }
{
    !line.completed && number <= line.issued.number && stands_for(number, ban, &line.issued)
}

fn have_one(lines: &[BanLine], number: u64, ban: &Ban) -> bool
    ensures { result ≡ list_any (does_work (record { number = number; moment = 0; ban = ban.now })) lines.now }
{
    lines.iter().any(|line| shows_as(number, ban, line))
}

/// Whether the lines show the ban that was issued under this number, at whatever moment: one of them that isn't marked as completed
/// does its work, and isn't older.
pub fn shows(lines: &[BanLine], number: u64, ban: &Ban) -> bool
    ensures { (moment : ℕ) → result ≡ is_shown (those_open lines.now) (record { number = number; moment = moment; ban = ban.now }) }
{
    have_one(lines, number, ban)
}

/// Whether a newer line has an equal ban.
fn is_newer_for(line: &BanLine, newer: &BanLine) -> bool
    ensures { result ≡ is_newer_equal line.now newer.now }
{
    line.issued.number < newer.issued.number && is_equal(&newer.issued.ban, &line.issued.ban)
}

fn has_newer(lines: &[BanLine], line: &BanLine) -> bool
    ensures { result ≡ newer_is_there lines.now line.now }
{
    lines.iter().any(|newer| is_newer_for(line, newer))
}

fn is_in_place(lines: &[BanLine], line: &BanLine) -> bool
    ensures { result ≡ is_in_order lines.now line.now }
{
    !line.completed || has_newer(lines, line)
}

/// Whether each line that is marked as completed has a newer equal one.
pub fn are_completed(lines: &[BanLine]) -> bool
    ensures { IsTrue result ↔ AllByRecursion (λ line. line.completed ≡ true → newer_is_there lines.now line ≡ true) lines.now }
{
    lines.iter().all(|line| is_in_place(lines, line))
}
