// The lines at the front of a text.
ghost use Rattle.std.specs.Prelude.{◌≡◌, ◌↔◌, ◌+◌, ◌<◌, ◌≤◌, [], ◌∷◌, length, take, IsTrue, MatchOption, IfSome};
ghost use Rattle.std.specs.List.{prefix_len};
ghost use Rattle.http_heads.specs.Limits.{line_limit};
ghost use Rattle.http_heads.specs.Lines.{ended_lines, is_empty_line, is_full_line, from_full, full_lines};

use crate::limits::MAX_LINES;

/// Whether a start line and 65 lines behind it stand in the bytes, none of them empty.
pub fn has_too_many_lines(bytes: &[u8]) -> bool
    ensures { IsTrue result ↔ (line_limit ≤ full_lines bytes.now) }
{
    count_full(after_empty_lines(bytes)) >= MAX_LINES
}

// What stands behind the empty lines at the front.
fn after_empty_lines(bytes: &[u8]) -> &[u8]
    ensures { ended_lines result.now ≡ from_full (ended_lines bytes.now) }
{
    let mut rest = bytes;
    while let Some((line, behind)) = next_line(rest) {
        if !is_empty(line) {
            break;
        }
        rest = behind;
    }
    rest
}

// How many lines at the front aren't empty.
fn count_full(bytes: &[u8]) -> usize
    ensures { result ≡ prefix_len is_full_line (ended_lines bytes.now) }
{
    let mut count = 0;
    let mut rest = bytes;
    while let Some((line, behind)) = next_line(rest) {
        if is_empty(line) {
            break;
        }
        count += 1;
        rest = behind;
    }
    count
}

fn is_empty(line: &[u8]) -> bool
    ensures { result ≡ is_empty_line line.now }
{
    match line {
        [] => true,
        [byte] => *byte == b'\r',
        _ => false,
    }
}

// The first line without its LF, and what stands behind it.
fn next_line(bytes: &[u8]) -> Option<(&[u8], &[u8])>
    ensures line { MatchOption result (ended_lines bytes.now ≡ []) (λ x. ended_lines bytes.now ≡ x.0.now ∷ ended_lines x.1.now) }
    ensures less { IfSome result (λ x. length x.1.now < length bytes.now) }
{
    for (i, byte) in bytes.iter().enumerate() {
        if *byte == b'\n' {
            return Some((&bytes[..i], &bytes[i + 1..]));
        }
    }
    None
}
