// The longest piece at the front of a text.
ghost use Rattle.std.specs.Prelude.{◌≡◌, ◌≤◌, ℕ, length, take, MatchOption};
ghost use Rattle.vcl_tokens.specs.Spelling.{IsNoPiece};
ghost use Rattle.vcl_tokens.specs.Reading.{IsLongest};
ghost use Rattle.vcl_tokens.specs.Longest.{longest_behind, better};
ghost use Rattle.vcl_tokens.specs.declared.spelling.State.TheVariants as state;

use crate::spelling::{Form, State, ends_as, next};

/// The longest piece that the text begins with, and its length in bytes; None where no piece begins there.
pub fn longest_piece(text: &[u8]) -> Option<(usize, Form)>
    ensures { MatchOption result
        ((m : ℕ) → m ≤ length text.now → IsNoPiece (take m text.now))
        (λ piece. IsLongest text.now piece.0 piece.1) }
{
    scan(text)
}

fn scan(text: &[u8]) -> Option<(usize, Form)>
    ensures { result ≡ longest_behind state.Start text.now }
{
    let mut state = State::Start;
    let mut best = None;
    for (i, byte) in text.iter().enumerate() {
        best = better_of(ends_as(state), i, best);
        match next(state, *byte) {
            Some(later) => state = later,
            None => return best,
        }
    }
    better_of(ends_as(state), text.len(), best)
}

// A piece that ends at this length, or else the best before it.
fn better_of(
    form: Option<Form>,
    length: usize,
    best: Option<(usize, Form)>,
) -> Option<(usize, Form)>
    ensures { result ≡ better form length best }
{
    match form {
        Some(form) => Some((length, form)),
        None => best,
    }
}
