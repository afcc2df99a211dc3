// Names and decimals by their ends, and names by their dot.
ghost use Rattle.std.specs.Prelude.{◌≡◌, ◌+◌, ◌<◌, ◌==◌, length, drop, position, IfSome};
ghost use Rattle.vcl_tree.specs.Endings.{ends_in};

/// Whether the text ends in these bytes.
pub fn ends_in(suffix: &[u8], text: &[u8]) -> bool
    ensures { result ≡ ends_in suffix.now text.now }
{
    let front = text.len().saturating_sub(suffix.len());
    &text[front..] == suffix
}

/// The place of the first dot.
pub fn dot_in(name: &[u8]) -> Option<usize>
    ensures value { result ≡ position (λ byte. byte == 46) name.now }
    ensures within { IfSome result (λ k. k < length name.now) }
{
    name.iter().position(|byte| *byte == b'.')
}

/// What stands behind the byte at a place.
pub fn behind(name: &[u8], place: usize) -> &[u8]
    requires { place < length name.now }
    ensures { result.now ≡ drop (place + 1) name.now }
{
    &name[place + 1..]
}
