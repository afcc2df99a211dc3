// How a text is cut into lines.
ghost use Rattle.std.specs.Prelude.{◌≡◌, ◌<◌, ◌+◌, ◌∷◌, [], length, MatchOption, IfSome};
ghost use Rattle.session_text.specs.Lines.{text_line, lines_of, size, content, without_cr};

/// The first line of a text, and what is behind it.
#[derive(Clone, Copy)]
pub struct NextLine<'a> {
    /// The bytes up to LF.
    pub body: &'a [u8],
    /// Whether the LF is there.
    pub ended: bool,
    pub rest: &'a [u8],
}

/// The first line of a text. None where the text is empty.
pub fn next_line(text: &[u8]) -> Option<NextLine<'_>>
    ensures lines { MatchOption result (text.now ≡ []) (λ next. lines_of text.now ≡ text_line next.body.now next.ended ∷ lines_of next.rest.now) }
    ensures some { IfSome result (λ next. 0 < size (text_line next.body.now next.ended)) }
    ensures joined { IfSome result (λ next. size (text_line next.body.now next.ended) + length next.rest.now ≡ length text.now) }
{
    if text.len() == 0 {
        return None;
    }
    for (place, byte) in text.iter().enumerate() {
        if *byte == b'\n' {
            return Some(NextLine {
                body: &text[..place],
                ended: true,
                rest: &text[place + 1..],
            });
        }
    }
    Some(NextLine {
        body: text,
        ended: false,
        rest: &[],
    })
}

/// What a line says: a CR before its LF is dropped.
pub fn content_of(body: &[u8], ended: bool) -> &[u8]
    ensures { result.now ≡ content (text_line body.now ended) }
{
    if ended { without_cr_of(body) } else { body }
}

fn without_cr_of(body: &[u8]) -> &[u8]
    ensures { result.now ≡ without_cr body.now }
{
    let len = body.len();
    if len == 0 {
        return body;
    }
    if body[len - 1] == b'\r' {
        return &body[..len - 1];
    }
    body
}
