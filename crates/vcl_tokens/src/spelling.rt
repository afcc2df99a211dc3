// How the tokens of VCL are spelled: which byte may follow which, and what a piece of text is.
ghost use Rattle.std.specs.Prelude.{◌≡◌, ◌==◌, if◌then◌else◌};
ghost use Rattle.std.specs.Char.{is_ascii_digit};
ghost use Rattle.vcl_tokens.specs.Spelling.{is_name_byte};
ghost use Rattle.vcl_tokens.specs.Steps.{next_state, first_state, behind_sign, unit_state, line_state, form_at, sign_of};

use vcl_tree::Sign;

/// What a piece of a text is.
#[derive(Clone, Copy)]
pub enum Form {
    Blank,
    Comment,
    Name,
    Integer,
    Decimal,
    Duration,
    /// A string between two `"`.
    Quoted,
    /// A string between `{"` and `"}`.
    LongQuoted,
    /// A string between two `"""`.
    TripleQuoted,
    Sign(Sign),
    /// A comment or a string whose end is still to come.
    Unended,
}

/// What stands between the beginning of a piece and some place in it.
#[derive(Clone, Copy)]
pub enum State {
    Start,
    /// A whole piece, which no byte carries on.
    Whole(Form),
    Name,
    Digits,
    /// Digits and a point.
    Point,
    OneDecimal,
    TwoDecimals,
    ThreeDecimals,
    /// A number and an `m`.
    Minutes,
    /// A sign, which a byte more may carry on.
    Sign(Sign),
    Ampersand,
    Bar,
    LineComment,
    BlockComment,
    /// A block comment that has a `*` last.
    BlockCommentStar,
    /// A `"`.
    Quote,
    /// A `"` and a byte or more behind it.
    Line,
    /// `""`.
    EmptyLine,
    Long,
    /// A string that `{"` begins and that has a `"` last.
    LongQuote,
    Triple,
    /// A string that `"""` begins and that has one `"` last, or two.
    TripleQuote,
    TripleQuotes,
}

/// What stands there with one more byte; None where no piece goes on so.
pub fn next(state: State, byte: u8) -> Option<State>
    ensures { result ≡ next_state state byte }
{
    match state {
        State::Start => first(byte),
        State::Whole(_) => None,
        State::Name => kept_if(is_name(byte), State::Name),
        State::Digits => behind_digits(byte),
        State::Point => kept_if(byte.is_ascii_digit(), State::OneDecimal),
        State::OneDecimal => digit_or_unit(byte, State::TwoDecimals),
        State::TwoDecimals => digit_or_unit(byte, State::ThreeDecimals),
        State::ThreeDecimals => with_unit(byte),
        State::Minutes => kept_if(byte == b's', State::Whole(Form::Duration)),
        State::Sign(sign) => with_sign(sign, byte),
        State::Ampersand => kept_if(byte == b'&', State::Whole(Form::Sign(Sign::And))),
        State::Bar => kept_if(byte == b'|', State::Whole(Form::Sign(Sign::Or))),
        State::LineComment => kept_if(byte != b'\n', State::LineComment),
        State::BlockComment => Some(if byte == b'*' {
            State::BlockCommentStar
        } else {
            State::BlockComment
        }),
        State::BlockCommentStar => Some(match byte {
            b'/' => State::Whole(Form::Comment),
            b'*' => State::BlockCommentStar,
            _ => State::BlockComment,
        }),
        State::Quote => within_line(byte, State::EmptyLine),
        State::Line => within_line(byte, State::Whole(Form::Quoted)),
        State::EmptyLine => kept_if(byte == b'"', State::Triple),
        State::Long => within_long(byte),
        State::LongQuote if byte == b'}' => Some(State::Whole(Form::LongQuoted)),
        State::LongQuote => within_long(byte),
        State::Triple => within_triple(byte, State::TripleQuote),
        State::TripleQuote => within_triple(byte, State::TripleQuotes),
        State::TripleQuotes => within_triple(byte, State::Whole(Form::TripleQuoted)),
    }
}

/// What a piece is that ends there; None where no piece does.
pub fn ends_as(state: State) -> Option<Form>
    ensures { result ≡ form_at state }
{
    match state {
        State::Start | State::Point | State::Ampersand | State::Bar => None,
        State::Whole(form) => Some(form),
        State::Name => Some(Form::Name),
        State::Digits => Some(Form::Integer),
        State::OneDecimal | State::TwoDecimals | State::ThreeDecimals => Some(Form::Decimal),
        State::Minutes => Some(Form::Duration),
        State::Sign(sign) => Some(Form::Sign(sign)),
        State::LineComment => Some(Form::Comment),
        State::EmptyLine => Some(Form::Quoted),
        State::BlockComment
        | State::BlockCommentStar
        | State::Quote
        | State::Line
        | State::Long
        | State::LongQuote
        | State::Triple
        | State::TripleQuote
        | State::TripleQuotes => Some(Form::Unended),
    }
}

fn kept_if(test: bool, state: State) -> Option<State>
    ensures { result ≡ (if test then Some state else None) }
{
    if test { Some(state) } else { None }
}

fn is_name(byte: u8) -> bool
    ensures { result ≡ is_name_byte byte }
{
    byte.is_ascii_alphanumeric() || byte == b'_' || byte == b'-' || byte == b'.'
}

fn first(byte: u8) -> Option<State>
    ensures { result ≡ first_state byte }
{
    if byte == b' ' || byte == b'\t' || byte == b'\r' || byte == b'\n' {
        return Some(State::Whole(Form::Blank));
    }
    if byte.is_ascii_alphabetic() {
        return Some(State::Name);
    }
    if byte.is_ascii_digit() {
        return Some(State::Digits);
    }
    match byte {
        b'"' => Some(State::Quote),
        b'#' => Some(State::LineComment),
        b'&' => Some(State::Ampersand),
        b'|' => Some(State::Bar),
        _ => match sign(byte) {
            Some(sign) => Some(State::Sign(sign)),
            None => None,
        },
    }
}

// The sign of one byte.
fn sign(byte: u8) -> Option<Sign>
    ensures { result ≡ sign_of byte }
{
    match byte {
        b'{' => Some(Sign::OpenBrace),
        b'}' => Some(Sign::CloseBrace),
        b'(' => Some(Sign::OpenParenthesis),
        b')' => Some(Sign::CloseParenthesis),
        b';' => Some(Sign::Semicolon),
        b',' => Some(Sign::Comma),
        b'.' => Some(Sign::Dot),
        b'/' => Some(Sign::Slash),
        b'=' => Some(Sign::Assign),
        b'~' => Some(Sign::Match),
        b'<' => Some(Sign::Less),
        b'>' => Some(Sign::Greater),
        b'!' => Some(Sign::Not),
        b'+' => Some(Sign::Plus),
        b'-' => Some(Sign::Minus),
        _ => None,
    }
}

// What carries a sign on.
fn with_sign(sign: Sign, byte: u8) -> Option<State>
    ensures { result ≡ behind_sign sign byte }
{
    match sign {
        Sign::Assign => sign_if(byte == b'=', Sign::Equal),
        Sign::Not if byte == b'=' => sign_if(true, Sign::NotEqual),
        Sign::Not => sign_if(byte == b'~', Sign::NotMatch),
        Sign::Less => sign_if(byte == b'=', Sign::LessOrEqual),
        Sign::Greater => sign_if(byte == b'=', Sign::GreaterOrEqual),
        Sign::Plus => sign_if(byte == b'=', Sign::AddAssign),
        Sign::OpenBrace => kept_if(byte == b'"', State::Long),
        Sign::Slash if byte == b'/' => Some(State::LineComment),
        Sign::Slash => kept_if(byte == b'*', State::BlockComment),
        _ => None,
    }
}

fn sign_if(test: bool, sign: Sign) -> Option<State>
    ensures { result ≡ (if test then Some (State.Whole (Form.Sign sign)) else None) }
{
    kept_if(test, State::Whole(Form::Sign(sign)))
}

fn behind_digits(byte: u8) -> Option<State>
    ensures { result ≡ next_state State.Digits byte }
{
    if byte == b'.' {
        return Some(State::Point);
    }
    digit_or_unit(byte, State::Digits)
}

// A digit leads to the state; else the byte is a unit's first.
fn digit_or_unit(byte: u8, state: State) -> Option<State>
    ensures { result ≡ (if is_ascii_digit byte then Some state else unit_state byte) }
{
    if byte.is_ascii_digit() {
        return Some(state);
    }
    with_unit(byte)
}

fn with_unit(byte: u8) -> Option<State>
    ensures { result ≡ unit_state byte }
{
    match byte {
        b'm' => Some(State::Minutes),
        b's' | b'h' | b'd' | b'w' | b'y' => Some(State::Whole(Form::Duration)),
        _ => None,
    }
}

// A `"` leads to the state, and no line's end may come.
fn within_line(byte: u8, quoted: State) -> Option<State>
    ensures { result ≡ line_state byte quoted }
{
    match byte {
        b'"' => Some(quoted),
        b'\n' => None,
        _ => Some(State::Line),
    }
}

fn within_long(byte: u8) -> Option<State>
    ensures { result ≡ next_state State.Long byte }
{
    Some(if byte == b'"' {
        State::LongQuote
    } else {
        State::Long
    })
}

fn within_triple(byte: u8, quoted: State) -> Option<State>
    ensures { result ≡ (if byte == 34 then Some quoted else Some State.Triple) }
{
    Some(if byte == b'"' { quoted } else { State::Triple })
}
