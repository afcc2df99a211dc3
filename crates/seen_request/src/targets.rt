// The target of a request in absolute form.
ghost use Rattle.std.specs.Prelude.{◌≡◌, ◌≤◌, ◌∷◌, length, take, drop, option_map, IfOk};
ghost use Rattle.std.specs.List.{position_or_len};
ghost use Rattle.seen_request.specs.Targets.{behind_front as behind_text, behind_scheme as behind, ends_authority as ends, authority_len, authority_in, is_rooted as starts_at_root, rooted as from_root, path_in, lacks_authority as lacks};

use std::alloc::{AllocError, Global};
use units::{Text, fold_eq};

fn first_bytes(text: &[u8], len: usize) -> &[u8]
    ensures { result.now ≡ take len text.now }
{
    if len < text.len() { &text[..len] } else { text }
}

fn bytes_behind(text: &[u8], len: usize) -> &[u8]
    ensures { result.now ≡ drop len text.now }
{
    if len < text.len() { &text[len..] } else { &[] }
}

// What stands behind this front, where the text begins so.
fn behind_front<'t>(front: &[u8], text: &'t [u8]) -> Option<&'t [u8]>
    ensures { option_map (λ rest. rest.now) result ≡ behind_text front.now text.now }
{
    if fold_eq(front, first_bytes(text, front.len())) {
        Some(bytes_behind(text, front.len()))
    } else {
        None
    }
}

/// What stands behind the scheme of an absolute target, which is http or https.
pub(crate) fn behind_scheme(target: &[u8]) -> Option<&[u8]>
    ensures { option_map (λ rest. rest.now) result ≡ behind target.now }
{
    match behind_front(b"http://", target) {
        Some(rest) => Some(rest),
        None => behind_front(b"https://", target),
    }
}

fn ends_authority(byte: u8) -> bool
    ensures { result ≡ ends byte }
{
    byte == b'/' || byte == b'?'
}

// The place behind the authority.
fn end_of_authority(rest: &[u8]) -> usize
    ensures place { result ≡ authority_len rest.now }
    ensures within { result ≤ length rest.now }
{
    let mut place = 0;
    while place < rest.len() && !ends_authority(rest[place]) {
        place += 1;
    }
    place
}

/// The authority, in what stands behind the scheme.
pub(crate) fn authority_of(rest: &[u8]) -> &[u8]
    ensures { result.now ≡ authority_in rest.now }
{
    &rest[..end_of_authority(rest)]
}

fn is_rooted(path: &[u8]) -> bool
    ensures { result ≡ starts_at_root path.now }
{
    match path {
        [] => false,
        [first, ..] => *first == b'/',
    }
}

fn with_slash(alloc: Global, path: &[u8]) -> Result<Text, AllocError>
    ensures { IfOk result (λ text. text ≡ 47 ∷ path.now) }
{
    let mut out = Vec::new(alloc);
    out.push(b'/')?;
    out.extend_from_slice(path)?;
    Text::from_vec(out)
}

fn rooted(alloc: Global, path: &[u8]) -> Result<Text, AllocError>
    ensures { IfOk result (λ text. text ≡ from_root path.now) }
{
    if is_rooted(path) {
        Text::of(alloc, path)
    } else {
        with_slash(alloc, path)
    }
}

/// The path with its query, in what stands behind the scheme.
pub(crate) fn path_of(alloc: Global, rest: &[u8]) -> Result<Text, AllocError>
    ensures { IfOk result (λ path. path ≡ path_in rest.now) }
{
    rooted(alloc, &rest[end_of_authority(rest)..])
}

/// Whether the target is absolute and its authority is empty.
pub(crate) fn lacks_authority(target: &[u8]) -> bool
    ensures { result ≡ lacks target.now }
{
    match behind_scheme(target) {
        Some(rest) => end_of_authority(rest) == 0,
        None => false,
    }
}
