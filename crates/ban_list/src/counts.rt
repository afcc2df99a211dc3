// How many objects stand where, as counts in a row.
ghost use Rattle.std.specs.Prelude.{◌≡◌, ◌+◌, ◌-◌, ◌<◌, ◌≤◌, ◌^◌, ◌∷◌, ◌++◌, [], ℕ, List, get_or, length, sum};
ghost use Rattle.ban_list.specs.Bans.{count_before, one_less, one_more, summed};

use std::collections::VecDeque;

/// Counts one more object there.
pub(crate) fn add_one(counts: &mut VecDeque<u64>, at: usize)
    requires within { at < length counts.old.items }
    requires few { sum counts.old.items + 1 < 2 ^ 64 }
    ensures { counts.new.items ≡ one_more at counts.old.items }
{
    counts[at] += 1;
}

/// Counts one object less there.
pub(crate) fn take_one(counts: &mut VecDeque<u64>, at: usize)
    requires within { at < length counts.old.items }
    requires some { 0 < get_or counts.old.items at 0 }
    ensures { counts.new.items ≡ one_less at counts.old.items }
{
    counts[at] -= 1;
}

/// Counts the objects of the last place at the one before it.
pub(crate) fn join_last(counts: &mut VecDeque<u64>)
    requires two { 2 ≤ length counts.old.items }
    requires few { sum counts.old.items < 2 ^ 64 }
    ensures { counts.new.items ≡ summed (length counts.old.items - 2) counts.old.items }
{
    let behind = counts.pop_back().unwrap_or(0);
    let last = counts.len() - 1;
    counts[last] += behind;
}

/// Takes the last count, and gives it: it comes first where it stays, and else is added to the first.
pub(crate) fn turn_last(counts: &mut VecDeque<u64>, stays: bool) -> u64
    requires some { 0 < length counts.old.items }
    requires few { sum counts.old.items < 2 ^ 64 }
    ensures { (others : List ℕ) (last : ℕ) → counts.old.items ≡ others ++ last ∷ []
        → (result ≡ last) × (counts.new.items ≡ count_before stays last others) }
{
    let last = counts.pop_back().unwrap_or(0);
    if stays || counts.is_empty() {
        counts.push_front_reserved(last);
    } else {
        counts[0] += last;
    }
    last
}
