// What a word or a sign begins, or ties.
ghost use Rattle.std.specs.Prelude.{◌≡◌};
ghost use Rattle.vcl_parse.specs.Starts.{term_sign_of, statement_word_of, item_word_of, else_word_of};
ghost use Rattle.vcl_tree.specs.Signs.{comparison_of};

use vcl_tree::{Comparison, Sign, Word};

/// What a sign begins as a term.
#[derive(Clone, Copy)]
pub enum TermSign {
    Group,
    Negative,
    Nothing,
}

/// What a word begins as a statement.
#[derive(Clone, Copy)]
pub enum StatementWord {
    Set,
    Unset,
    Call,
    New,
    If,
    Return,
    Nothing,
}

/// What a word begins at the top of a text.
#[derive(Clone, Copy)]
pub enum ItemWord {
    Import,
    Backend,
    Acl,
    Probe,
    Sub,
    Nothing,
}

/// How a word carries on a conditional statement.
#[derive(Clone, Copy)]
pub enum ElseWord {
    ElseIf,
    Else,
    Nothing,
}

pub fn term_sign(sign: Sign) -> TermSign
    ensures { result ≡ term_sign_of sign }
{
    match sign {
        Sign::OpenParenthesis => TermSign::Group,
        Sign::Minus => TermSign::Negative,
        _ => TermSign::Nothing,
    }
}

pub fn statement_word(word: Word) -> StatementWord
    ensures { result ≡ statement_word_of word }
{
    match word {
        Word::Set => StatementWord::Set,
        Word::Unset => StatementWord::Unset,
        Word::Call => StatementWord::Call,
        Word::New => StatementWord::New,
        Word::If => StatementWord::If,
        Word::Return => StatementWord::Return,
        _ => StatementWord::Nothing,
    }
}

pub fn item_word(word: Word) -> ItemWord
    ensures { result ≡ item_word_of word }
{
    match word {
        Word::Import => ItemWord::Import,
        Word::Backend => ItemWord::Backend,
        Word::Acl => ItemWord::Acl,
        Word::Probe => ItemWord::Probe,
        Word::Sub => ItemWord::Sub,
        _ => ItemWord::Nothing,
    }
}

pub fn else_word(word: Word) -> ElseWord
    ensures { result ≡ else_word_of word }
{
    match word {
        Word::ElseIf => ElseWord::ElseIf,
        Word::Else => ElseWord::Else,
        _ => ElseWord::Nothing,
    }
}

pub fn comparison(sign: Sign) -> Option<Comparison>
    ensures { result ≡ comparison_of sign }
{
    match sign {
        Sign::Equal => Some(Comparison::Equal),
        Sign::NotEqual => Some(Comparison::NotEqual),
        Sign::Less => Some(Comparison::Less),
        Sign::LessOrEqual => Some(Comparison::LessOrEqual),
        Sign::Greater => Some(Comparison::Greater),
        Sign::GreaterOrEqual => Some(Comparison::GreaterOrEqual),
        Sign::Match => Some(Comparison::Match),
        Sign::NotMatch => Some(Comparison::NotMatch),
        _ => None,
    }
}
