// What an answer says, and its text.
ghost use Rattle.std.specs.Prelude.{◌≡◌, ◌++◌, ◌-◌, ◌∷◌, ℕ, List, IfOk, OnOk, length, replicate};
ghost use Rattle.std.specs.Fmt.{decimal};
ghost use Rattle.cli_console.specs.Messages.{answer_text, left_justified, said, saying};

use std::alloc::{AllocError, Global};
use units::{Text, push_number};
use vcl_tree::Refusal;

/// What an answer says.
#[derive(Drop)]
pub enum Message {
    /// The line has no words.
    SyntaxError,
    /// There is no command of the name.
    UnknownRequest,
    TooFew,
    TooMany,
    /// The first word is no name of a VCL.
    BadName,
    /// The moment in milliseconds since 1970.
    Pong(u64),
    Compiled,
    /// The text of a VCL is refused, for this cause at this byte of it.
    VclRefused(Refusal, u32),
    /// The name of a VCL that isn't discarded.
    NameTaken(Text),
    /// The name of a file.
    CannotRead(Text),
    /// The name of the VCL.
    NowActive(Text),
    /// A name that no VCL has.
    NoVcl(Text),
    /// The name of the VCL.
    IsActive(Text),
    /// The words are no ban, for the cause of this number.
    BanRefused(u8),
    /// The word is no state of a backend's health.
    NoState,
    /// A name that no backend of the active VCL has.
    NoBackend(Text),
    /// What was asked for is done.
    Done,
    /// Lines.
    Listing(Text),
    Closing,
}

/// A status and what is said with it.
#[derive(Drop)]
pub struct Answer {
    pub status: u16,
    pub body: Text,
}

/// The text of the answer that says this.
pub fn text_of(alloc: Global, message: &Message) -> Result<Text, AllocError>
    ensures { IfOk result (λ text. text ≡ answer_text (said message.now)) }
{
    let answer = say(alloc, message)?;
    print(alloc, &answer)
}

fn say(alloc: Global, message: &Message) -> Result<Answer, AllocError>
    ensures { IfOk result (λ answer. answer ≡ said message.now) }
{
    match message {
        Message::SyntaxError => plain(alloc, 100, b"Syntax error"),
        Message::UnknownRequest => plain(alloc, 101, b"Unknown request."),
        Message::TooFew => plain(alloc, 104, b"Too few parameters"),
        Message::TooMany => plain(alloc, 105, b"Too many parameters"),
        Message::BadName => plain(alloc, 106, b"Bad name"),
        Message::Pong(moment) => numbered(alloc, 200, b"PONG ", moment / 1000, b" 1.0"),
        Message::Compiled => plain(alloc, 200, b"VCL compiled."),
        Message::VclRefused(kind, place) => refused(alloc, *kind, *place),
        Message::NameTaken(name) => naming(alloc, 106, b"Already a VCL named ", name),
        Message::CannotRead(file) => naming(alloc, 300, b"Cannot read ", file),
        Message::NowActive(name) => named(alloc, 200, b"VCL '", name, b"' now active"),
        Message::NoVcl(name) => naming(alloc, 106, b"No VCL named ", name),
        Message::IsActive(name) => named(alloc, 300, b"VCL ", name, b" is the active VCL"),
        Message::BanRefused(number) => numbering(alloc, 106, b"Ban refused: ", u64::from(*number)),
        Message::NoState => plain(alloc, 106, b"No such state"),
        Message::NoBackend(name) => naming(alloc, 106, b"No backend named ", name),
        Message::Done => plain(alloc, 200, b""),
        Message::Listing(text) => Ok(Answer {
            status: 200,
            body: text.copy()?,
        }),
        Message::Closing => plain(alloc, 500, b"Closing CLI connection"),
    }
}

fn plain(alloc: Global, status: u16, body: &[u8]) -> Result<Answer, AllocError>
    ensures { IfOk result (λ answer. answer ≡ saying status body.now) }
{
    Ok(Answer {
        status,
        body: Text::of(alloc, body)?,
    })
}

fn naming(alloc: Global, status: u16, before: &[u8], name: &Text) -> Result<Answer, AllocError>
    ensures { IfOk result (λ answer. answer ≡ saying status (before.now ++ name.now)) }
{
    let mut body = Vec::new(alloc);
    body.extend_from_slice(before)?;
    body.extend_from_slice(name.bytes())?;
    with_body(status, body)
}

fn named(
    alloc: Global,
    status: u16,
    before: &[u8],
    name: &Text,
    behind: &[u8],
) -> Result<Answer, AllocError>
    ensures { IfOk result (λ answer. answer ≡ saying status (before.now ++ name.now ++ behind.now)) }
{
    let mut body = Vec::new(alloc);
    body.extend_from_slice(before)?;
    body.extend_from_slice(name.bytes())?;
    body.extend_from_slice(behind)?;
    with_body(status, body)
}

fn numbering(alloc: Global, status: u16, before: &[u8], number: u64) -> Result<Answer, AllocError>
    ensures { IfOk result (λ answer. answer ≡ saying status (before.now ++ decimal number)) }
{
    let mut body = Vec::new(alloc);
    body.extend_from_slice(before)?;
    push_number(&mut body, alloc, number)?;
    with_body(status, body)
}

fn numbered(
    alloc: Global,
    status: u16,
    before: &[u8],
    number: u64,
    behind: &[u8],
) -> Result<Answer, AllocError>
    ensures { IfOk result (λ answer. answer ≡ saying status (before.now ++ decimal number ++ behind.now)) }
{
    let mut body = Vec::new(alloc);
    body.extend_from_slice(before)?;
    push_number(&mut body, alloc, number)?;
    body.extend_from_slice(behind)?;
    with_body(status, body)
}

fn refused(alloc: Global, kind: Refusal, place: u32) -> Result<Answer, AllocError>
    ensures { IfOk result (λ answer. answer ≡ said (Message.VclRefused kind place)) }
{
    let mut body = Vec::new(alloc);
    body.extend_from_slice(b"VCL refused: ")?;
    push_number(&mut body, alloc, u64::from(kind.number()))?;
    body.extend_from_slice(b" at ")?;
    push_number(&mut body, alloc, u64::from(place))?;
    with_body(106, body)
}

fn with_body(status: u16, body: Vec<u8>) -> Result<Answer, AllocError>
    ensures { IfOk result (λ answer. answer ≡ saying status body.items) }
{
    Ok(Answer {
        status,
        body: Text::from_vec(body)?,
    })
}

// The answer as it is sent.
fn print(alloc: Global, answer: &Answer) -> Result<Text, AllocError>
    ensures { IfOk result (λ text. text ≡ answer_text answer.now) }
{
    let mut out = Vec::new(alloc);
    push_number(&mut out, alloc, u64::from(answer.status))?;
    out.push(b' ')?;
    push_left_justified(&mut out, alloc, answer.body.bytes().len() as u64)?;
    out.push(b'\n')?;
    out.extend_from_slice(answer.body.bytes())?;
    out.push(b'\n')?;
    Text::from_vec(out)
}

// Puts a number at the end, with blanks behind it up to eight bytes in all.
fn push_left_justified(out: &mut Vec<u8>, alloc: Global, number: u64) -> Result<(), AllocError>
    ensures { OnOk result (out.new.items ≡ out.old.items ++ left_justified (decimal number)) }
{
    let digits = number.to_string(alloc)?;
    out.extend_from_slice(digits.as_bytes())?;
    push_blanks(out, 8_usize.saturating_sub(digits.len()))
}

fn push_blanks(out: &mut Vec<u8>, count: usize) -> Result<(), AllocError>
    ensures { OnOk result (out.new.items ≡ out.old.items ++ replicate count 32) }
{
    for _ in 0..count {
        out.push(b' ')?;
    }
    Ok(())
}
