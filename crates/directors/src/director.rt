// The choice of a member by each kind of director.
ghost use Rattle.std.specs.Prelude.{◌≡◌, ◌≤◌, ◌%◌, ℕ, ◌↔◌, IsNone, IfSome, All, length, sum, slice_index};
ghost use Rattle.directors.specs.Choice.{Chooses, IsFirstFrom, IsNextRound, HasShare, choice};

use units::Sequence;

/// The kinds of director. `One` is a single backend.
#[derive(Clone, Copy, Debug, PartialEq, Eq)]
pub enum DirectorKind {
    One,
    RoundRobin,
    Fallback,
    Random,
    Hash,
}

/// The weights of a director's members, in their order. A member of weight 0 isn't healthy.
pub type Members = Sequence<u32>;

/// The place of the member that a director chooses, None where no member is healthy. `next` is the counter
/// of a round_robin director, `word` the word of a random or hash one; the other kinds look at neither.
pub fn choose(kind: DirectorKind, members: &Members, next: u64, word: u64) -> Option<usize>
    ensures chosen { IfSome result (Chooses kind members.now next word) }
    ensures none { IsNone result ↔ All (λ weight. weight ≡ 0) members.now }
    ensures value { result ≡ choice kind members.now next word }
{
    by_kind(kind, members.as_slice(), next, word)
}

fn by_kind(kind: DirectorKind, weights: &[u32], next: u64, word: u64) -> Option<usize>
    ensures chosen { IfSome result (Chooses kind weights.now next word) }
    ensures none { IsNone result ↔ All (λ weight. weight ≡ 0) weights.now }
{
    match kind {
        DirectorKind::One | DirectorKind::Fallback => first_healthy(weights),
        DirectorKind::RoundRobin => next_round(weights, next),
        DirectorKind::Random | DirectorKind::Hash => by_share(weights, word),
    }
}

/// A kind, members, counter and word have one chosen place at most.
pub fn one_choice(kind: DirectorKind, members: &Members, next: u64, word: u64)
    ensures { (x y : ℕ) → Chooses kind members.now next word x → Chooses kind members.now next word y → x ≡ y }
{}

// The first healthy member.
fn first_healthy(weights: &[u32]) -> Option<usize>
    ensures chosen { IfSome result (IsFirstFrom weights.now 0) }
    ensures none { IsNone result ↔ All (λ weight. weight ≡ 0) weights.now }
{
    weights.iter().position(|weight| *weight > 0)
}

// The first healthy member at a place or behind it.
fn healthy_from(weights: &[u32], start: usize) -> Option<usize>
    ensures chosen { IfSome result (IsFirstFrom weights.now start) }
    ensures none { IsNone result ↔ ((place : ℕ) → start ≤ place → slice_index weights.now place ≡ 0) }
{
    for place in start..weights.len() {
        if weights[place] > 0 {
            return Some(place);
        }
    }
    None
}

// The first healthy member from a place on, going round.
fn next_round(weights: &[u32], next: u64) -> Option<usize>
    ensures chosen { IfSome result (IsNextRound weights.now (next % length weights.now)) }
    ensures none { IsNone result ↔ All (λ weight. weight ≡ 0) weights.now }
{
    let count = weights.len() as u64;
    if count == 0 {
        return None;
    }
    let start = (next % count) as usize;
    match healthy_from(weights, start) {
        Some(place) => Some(place),
        None => first_healthy(weights),
    }
}

// The member in whose range of weights the word falls, taken modulo the sum of the weights.
fn by_share(weights: &[u32], word: u64) -> Option<usize>
    ensures chosen { IfSome result (HasShare weights.now (word % sum weights.now)) }
    ensures none { IsNone result ↔ All (λ weight. weight ≡ 0) weights.now }
{
    let total = total_weight(weights);
    if total == 0 {
        return None;
    }
    share_with(weights, u128::from(word) % total)
}

fn total_weight(weights: &[u32]) -> u128
    ensures { result ≡ sum weights.now }
{
    weights.iter().map(|weight| u128::from(*weight)).sum()
}

// The member in whose range of weights the number falls, None where the number is past them all.
fn share_with(weights: &[u32], number: u128) -> Option<usize>
    ensures chosen { IfSome result (HasShare weights.now number) }
    ensures none { IsNone result ↔ (sum weights.now ≤ number) }
{
    let mut left = number;
    for (place, weight) in weights.iter().enumerate() {
        let share = u128::from(*weight);
        if left < share {
            return Some(place);
        }
        left -= share;
    }
    None
}
