// Blanks at the ends of a text.
ghost use Rattle.std.specs.Prelude.{◌≡◌, ◌≤◌, length};
ghost use Rattle.std.specs.List.{prefix_len, suffix_len};
ghost use Rattle.units.specs.Blanks.{is_blank as one_blank, after_blanks as behind, before_blanks as in_front, trimmed};

/// The text without the spaces and tabs at its ends, which are no part of a field's value or of an element of a list
/// (RFC 9110, section 5.6.3).
pub fn trim_blanks(text: &[u8]) -> &[u8]
    ensures { result.now ≡ trimmed text.now }
{
    before_blanks(after_blanks(text))
}

fn is_blank(byte: u8) -> bool
    ensures { result ≡ one_blank byte }
{
    byte == b' ' || byte == b'\t'
}

fn after_blanks(text: &[u8]) -> &[u8]
    ensures { result.now ≡ behind text.now }
{
    let mut start = 0;
    while start < text.len() && is_blank(text[start]) {
        start += 1;
    }
    &text[start..]
}

fn before_blanks(text: &[u8]) -> &[u8]
    ensures { result.now ≡ in_front text.now }
{
    let mut end = text.len();
    while end > 0 && is_blank(text[end - 1]) {
        end -= 1;
    }
    &text[..end]
}
