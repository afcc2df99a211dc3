// What a replacement writes in the place of a match.
ghost use Rattle.std.specs.Prelude.{◌≡◌, ◌<◌, ◌≤◌, ◌++◌, [], ℕ, List, length, take, vec_len, IfOk, OnOk, MatchOption};
ghost use Rattle.vcl_values.specs.Replacements.{written};
ghost use Rattle.vcl_values.specs.Pieces.{piece_bytes};
ghost use Rattle.vcl_values.specs.Captured.{captured};

use regex::bytes::Captures;
use std::alloc::{AllocError, Global};

/// What a replacement begins with: a byte that stands for itself, or the number of a group.
#[derive(Clone, Copy)]
pub enum Piece {
    Byte(u8),
    Group(usize),
}

/// The replacement at a match, with what its groups captured, cut where there is no room for more bytes.
pub fn expanded(
    alloc: Global,
    captures: &Captures<'_, '_>,
    by: &[u8],
    room: usize,
) -> Result<Vec<u8>, AllocError>
    ensures { IfOk result (λ out. out.items ≡ take room (written (captured captures.now) by.now)) }
{
    let mut out = Vec::new(alloc);
    let mut rest = by;
    'pieces: while let Some((piece, behind)) = piece_at(rest) {
        if out.len() == room {
            return Ok(out);
        }
        push_piece(&mut out, captures, piece, room)?;
        rest = behind;
    }
    Ok(out)
}

// The first piece of a replacement and what stands behind it.
fn piece_at(by: &[u8]) -> Option<(Piece, &[u8])>
    ensures { MatchOption result (by.now ≡ []) (λ x. (length x.1.now < length by.now)
        × ((group : ℕ → List ℕ) → written group by.now ≡ piece_bytes group x.0 ++ written group x.1.now)) }
{
    let [first, behind @ ..] = by else {
        return None;
    };
    match behind {
        [b'\\', after @ ..] if *first == b'\\' => Some((Piece::Byte(b'\\'), after)),
        [digit @ b'0'..=b'9', after @ ..] if *first == b'\\' => {
            Some((Piece::Group(usize::from(*digit - b'0')), after))
        }
        _ => Some((Piece::Byte(*first), behind)),
    }
}

// Puts a piece at the end, or as much of it as there is room for.
fn push_piece(
    out: &mut Vec<u8>,
    captures: &Captures<'_, '_>,
    piece: Piece,
    room: usize,
) -> Result<(), AllocError>
    requires { vec_len out.old ≤ room }
    ensures put { OnOk result (out.new.items ≡ take room (out.old.items ++ piece_bytes (captured captures.now) piece)) }
    ensures within { OnOk result (vec_len out.new ≤ room) }
{
    match piece {
        Piece::Byte(byte) => push_within(out, &[byte], room),
        Piece::Group(group) => match captures.get(group) {
            Some(part) => push_within(out, part.as_bytes(), room),
            None => Ok(()),
        },
    }
}

// Puts as many of the bytes at the end as there is room for.
fn push_within(out: &mut Vec<u8>, bytes: &[u8], room: usize) -> Result<(), AllocError>
    requires { vec_len out.old ≤ room }
    ensures put { OnOk result (out.new.items ≡ take room (out.old.items ++ bytes.now)) }
    ensures within { OnOk result (vec_len out.new ≤ room) }
{
    let fitting = bytes.len().min(room - out.len());
    out.extend_from_slice(bytes.split_at(fitting).0)
}
