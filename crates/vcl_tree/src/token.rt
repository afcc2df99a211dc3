// What a VCL text is made of.
use units::Text;

/// A token and the place of its first byte.
#[derive(Drop)]
pub struct Token {
    pub kind: TokenKind,
    pub place: u32,
}

/// What a token is.
#[derive(Drop)]
pub enum TokenKind {
    /// A name that is no word of the language.
    Name(Text),
    /// A word of the language, and its bytes.
    Word(Word, Text),
    /// An integer, at most 9,223,372,036,854,775,807.
    Integer(i64),
    /// A decimal, as it is written.
    Decimal(Text),
    /// A duration in milliseconds, at most 10,000,000,000,000.
    Duration(i64),
    /// A string, without its quotes.
    String(Text),
    Sign(Sign),
}

/// The words of the language.
#[derive(Clone, Copy, Debug, PartialEq, Eq)]
pub enum Word {
    Vcl,
    Import,
    Backend,
    Acl,
    Probe,
    Sub,
    Set,
    Unset,
    Call,
    New,
    If,
    Else,
    /// `elseif`, `elsif` or `elif`.
    ElseIf,
    Return,
    None,
    True,
    False,
}

/// The signs of the language.
#[derive(Clone, Copy, Debug, PartialEq, Eq)]
pub enum Sign {
    OpenBrace,
    CloseBrace,
    OpenParenthesis,
    CloseParenthesis,
    Semicolon,
    Comma,
    Dot,
    Slash,
    Assign,
    Equal,
    NotEqual,
    Match,
    NotMatch,
    Less,
    LessOrEqual,
    Greater,
    GreaterOrEqual,
    Not,
    And,
    Or,
    Plus,
    AddAssign,
    Minus,
}
