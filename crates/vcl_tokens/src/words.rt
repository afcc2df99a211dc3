// The words of the language.
ghost use Rattle.std.specs.Prelude.{◌≡◌};
ghost use Rattle.std.specs.Map.{lookup};
ghost use Rattle.std.specs.Str.{bytes_eq};
ghost use Rattle.vcl_tokens.specs.Words.{word_of, statement_words};

use vcl_tree::Word;

/// The word that a name is; None for any other name.
pub fn word(name: &[u8]) -> Option<Word>
    ensures { result ≡ word_of name.now }
{
    if is(name, b"vcl") {
        return Some(Word::Vcl);
    }
    if is(name, b"import") {
        return Some(Word::Import);
    }
    if is(name, b"backend") {
        return Some(Word::Backend);
    }
    if is(name, b"acl") {
        return Some(Word::Acl);
    }
    if is(name, b"probe") {
        return Some(Word::Probe);
    }
    if is(name, b"sub") {
        return Some(Word::Sub);
    }
    if is(name, b"none") {
        return Some(Word::None);
    }
    if is(name, b"true") {
        return Some(Word::True);
    }
    if is(name, b"false") {
        return Some(Word::False);
    }
    statement_word(name)
}

// The word of a statement that a name is.
fn statement_word(name: &[u8]) -> Option<Word>
    ensures { result ≡ lookup (bytes_eq name.now) statement_words }
{
    if is(name, b"set") {
        return Some(Word::Set);
    }
    if is(name, b"unset") {
        return Some(Word::Unset);
    }
    if is(name, b"call") {
        return Some(Word::Call);
    }
    if is(name, b"new") {
        return Some(Word::New);
    }
    if is(name, b"if") {
        return Some(Word::If);
    }
    if is(name, b"else") {
        return Some(Word::Else);
    }
    if is(name, b"elseif") {
        return Some(Word::ElseIf);
    }
    if is(name, b"elsif") {
        return Some(Word::ElseIf);
    }
    if is(name, b"elif") {
        return Some(Word::ElseIf);
    }
    if is(name, b"return") {
        return Some(Word::Return);
    }
    None
}

fn is(name: &[u8], word: &[u8]) -> bool
    ensures { result ≡ bytes_eq name.now word.now }
{
    name == word
}
