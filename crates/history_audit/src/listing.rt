// A list of bans that an entry shows by their numbers.
ghost use Rattle.std.specs.Prelude.{◌≡◌, ◌≢◌, ◌++◌, ◌≤◌, ◌↔◌, List, Some, None, IfOk, IsTrue, MatchOption};
ghost use Rattle.cache_law.specs.History.{reached};
ghost use Rattle.journal_text.specs.declared.shown.Shown.TheVariants as shown;
ghost use Rattle.journal_text.specs.declared.shown.ShownBan.{ShownBan as ShownBanValue};
ghost use Rattle.history_audit.specs.Listing.{IsAllowed, ListsIf, found_lines, left_over, line_of as line_made, taken_line};

use ban_lines::are_completed;
use cache_law::{BanLine, Issued};
use flat_core::FlatCore;
use journal_text::{Shown, ShownBan};
use std::alloc::{AllocError, Global};
use std::collections::VecDeque;

fn line_of(ban: &Issued, shown: &ShownBan) -> Result<BanLine, AllocError>
    ensures { IfOk result (λ line. line ≡ line_made ban.now shown.now) }
{
    Ok(BanLine {
        issued: ban.copy()?,
        completed: shown.completed,
    })
}

/// Puts a line of the ban behind the others, where the next number is its own, and gives the numbers that are left.
fn take<'a>(
    lines: &mut Vec<BanLine>,
    wanted: &'a [ShownBan],
    ban: &Issued,
) -> Result<&'a [ShownBan], AllocError>
    ensures lines { IfOk result (λ rest. lines.new.items ≡ lines.old.items ++ taken_line wanted.now ban.now) }
    ensures rest { IfOk result (λ rest. rest.now ≡ left_over wanted.now ban.now) }
{
    match wanted {
        [] => Ok(wanted),
        [shown, others @ ..] => {
            if ban.number != shown.number {
                return Ok(wanted);
            }
            lines.push(line_of(ban, shown)?)?;
            Ok(others)
        }
    }
}

/// The lines of the bans that have these numbers, which fall as those of the bans do.
fn lines_of(
    alloc: Global,
    bans: &VecDeque<Issued>,
    shown: &[ShownBan],
) -> Result<Option<Vec<BanLine>>, AllocError>
    ensures { IfOk result (λ found. MatchOption found (found_lines bans.now.items shown.now ≡ None) (λ lines. found_lines bans.now.items shown.now ≡ Some lines.items)) }
{
    let mut lines = Vec::new(alloc);
    let mut wanted = shown;
    'bans: for place in 0..bans.len() {
        wanted = take(&mut lines, wanted, &bans[place])?;
    }
    if wanted.is_empty() {
        Ok(Some(lines))
    } else {
        Ok(None)
    }
}

/// The list of bans that the reply is.
fn shown_bans(reply: &Shown) -> Option<&[ShownBan]>
    ensures { MatchOption result ((bans : List ShownBanValue) → reply.now ≢ shown.Bans bans) (λ bans. reply.now ≡ shown.Bans bans.now) }
{
    match reply {
        Shown::Bans(bans) => Some(bans.as_slice()),
        _ => None,
    }
}

// By the lines that have these numbers.
fn allows(core: &FlatCore, moment: u64, lines: &[BanLine]) -> bool
    requires { (reached core.now.beginning core.now.entries).moment ≤ moment }
    ensures { IsTrue result ↔ IsAllowed core.now moment lines.now }
{
    are_completed(lines) && core.shows(moment, lines)
}

/// Whether the reply is a list of bans that may be given at the moment.
pub(crate) fn may_list(
    alloc: Global,
    core: &FlatCore,
    bans: &VecDeque<Issued>,
    moment: u64,
    reply: &Shown,
) -> Result<bool, AllocError>
    requires { (reached core.now.beginning core.now.entries).moment ≤ moment }
    ensures { IfOk result (ListsIf core.now bans.now.items moment reply.now) }
{
    let Some(shown) = shown_bans(reply) else {
        return Ok(false);
    };
    match lines_of(alloc, bans, shown)? {
        Some(lines) => Ok(allows(core, moment, lines.as_slice())),
        None => Ok(false),
    }
}
