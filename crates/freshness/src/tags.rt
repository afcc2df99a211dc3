// Entity tags, and lists of them.
ghost use Rattle.std.specs.Prelude.{◌≡◌, ◌∷◌, ◌<◌, ◌&&◌, not, length, [], false, MatchOption};
ghost use Rattle.freshness.specs.Validators.{lists as has_tag, is_same_tag as alike, opaque_tag, is_quoted_behind, parts};
ghost use Rattle.freshness.specs.Directives.{is_comma};

use units::trim_blanks;

/// Whether the list has the tag, in the weak comparison (RFC 9110, section 8.8.3.2). Commas within quotes are part of
/// a tag.
pub fn lists(tag: &[u8], list: &[u8]) -> bool
    ensures { result ≡ has_tag tag.now list.now }
{
    let mut rest = list;
    loop {
        let (part, behind) = first_part(rest);
        if is_same_tag(tag, trim_blanks(part)) {
            return true;
        }
        match behind {
            Some(behind) => rest = behind,
            None => return false,
        }
    }
}

// The part before the first comma that stands outside quotes, and what stands behind that comma.
fn first_part(list: &[u8]) -> (&[u8], Option<&[u8]>)
    ensures { MatchOption result.1
        (parts false list.now ≡ result.0.now ∷ [])
        (λ behind. (parts false list.now ≡ result.0.now ∷ parts false behind.now) × (length behind.now < length list.now)) }
{
    let mut quoted = false;
    for (place, byte) in list.iter().enumerate() {
        if ends_part(quoted, *byte) {
            return (&list[..place], Some(&list[place + 1..]));
        }
        quoted = is_quoted(quoted, *byte);
    }
    (list, None)
}

fn ends_part(quoted: bool, byte: u8) -> bool
    ensures { result ≡ (is_comma byte && not quoted) }
{
    byte == b',' && !quoted
}

fn is_quoted(before: bool, byte: u8) -> bool
    ensures { result ≡ is_quoted_behind before byte }
{
    if byte == b'"' { !before } else { before }
}

fn is_same_tag(tag: &[u8], part: &[u8]) -> bool
    ensures { result ≡ alike tag.now part.now }
{
    !part.is_empty() && without_mark(tag) == without_mark(part)
}

// A tag without the mark of a weak one.
fn without_mark(tag: &[u8]) -> &[u8]
    ensures { result.now ≡ opaque_tag tag.now }
{
    tag.strip_prefix(b"W/").unwrap_or(tag)
}
