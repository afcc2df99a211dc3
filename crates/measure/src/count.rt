// Counting the bytes of a body and the tokens of a text.
ghost use Rattle.std.specs.Prelude.{◌≡◌, ◌≢◌, ◌≤◌, ◌<◌, ◌⊎◌, ℕ, true, Some, None, Ok, Err, length, take, IfOk, IfErr};
ghost use Rattle.units.specs.Outcomes.{Gives};
ghost use Rattle.http_bodies.specs.Reading.{Follows, refusal, is_whole};
ghost use Rattle.http_bodies.specs.Answers.{Refuses};
ghost use Rattle.http_bodies.specs.declared.framing.BodyError.TheVariants as Fault;
ghost use Rattle.measure.specs.declared.count.CountError.TheVariants.{NoMemory};
ghost use Rattle.measure.specs.Tasks.{HasBody, HasTokens, IsCount};

use crate::task::{Shape, Task};
use http_bodies::{BodyError, BodyReader, Framing};
use std::alloc::{AllocError, Global};
use units::Text;
use vcl_tokens::{one_reading, tokens};
use vcl_tree::VclError;

/// The most bytes of a body: 8 MiB.
const BODY_LIMIT: u64 = 8_388_608;

/// Why nothing was counted.
#[derive(Clone, Copy, Debug, PartialEq, Eq)]
pub enum CountError {
    /// The input has no count: it is no body of this shape, or no text of tokens, within the limits.
    Refused,
    NoMemory,
}

impl From<AllocError> for CountError {
    ghost from_gives = { λ _ e. e ≡ NoMemory };

    fn from(_: AllocError) -> CountError {
        CountError::NoMemory
    }
}

/// The number that the task asks for.
pub fn count(alloc: Global, task: Task, input: Vec<u8>) -> Result<u64, CountError>
    ensures given { IfOk result (IsCount task input.items) }
    ensures found { (n : ℕ) → IsCount task input.items n → Gives NoMemory result n }
{
    match task {
        Task::Bodies { shape, piece } => match shape {
            Shape::Chunked => body_bytes(alloc, Framing::Chunked, input.as_slice(), piece),
            Shape::Sized => {
                let length = input.len() as u64;
                body_bytes(alloc, Framing::Length(length), input.as_slice(), piece)
            }
        },
        Task::Tokens => token_count(alloc, input),
    }
}

// The bytes of the body that stands at the front of the input, fed in pieces of so many bytes.
fn body_bytes(alloc: Global, framing: Framing, input: &[u8], piece: u64) -> Result<u64, CountError>
    ensures given { IfOk result (HasBody framing input.now) }
    ensures found { (n : ℕ) → HasBody framing input.now n → Gives NoMemory result n }
{
    let mut reader = BodyReader::of(alloc, framing, BODY_LIMIT);
    if let Err(error) = feed_pieces(&mut reader, input, piece) {
        return Err(counted_error(error));
    }
    match reader.finish() {
        Ok(body) => Ok(body.bytes().len() as u64),
        Err(error) => Err(counted_error(error)),
    }
}

// Feeds the input in pieces, up to the body's end.
fn feed_pieces(reader: &mut BodyReader, input: &[u8], piece: u64) -> Result<usize, BodyError>
    ensures taken { IfOk result (λ count. (count ≤ length input.now) × Follows reader.old reader.new (take count input.now)) }
    ensures end { IfOk result (λ count. count < length input.now → is_whole reader.new ≡ true) }
    ensures kept { IfOk result (λ _. (refusal reader.new ≡ refusal reader.old) ⊎ (refusal reader.new ≡ None)) }
    ensures refused { IfErr result (λ e. e ≢ Fault.NoMemory → (refusal reader.old ≡ Some e) ⊎ Refuses reader.old input.now e) }
{
    let most = piece.max(1);
    let mut at = 0;
    while at < input.len() {
        let wanted = ((input.len() - at) as u64).min(most) as usize;
        match reader.feed(&input[at..at + wanted]) {
            Ok(count) => {
                at += count;
                if count < wanted {
                    break;
                }
            }
            Err(error) => return Err(error),
        }
    }
    Ok(at)
}

fn counted_error(error: BodyError) -> CountError
    ensures { result ≢ NoMemory → error ≢ Fault.NoMemory }
{
    match error {
        BodyError::NoMemory => CountError::NoMemory,
        _ => CountError::Refused,
    }
}

fn token_count(alloc: Global, input: Vec<u8>) -> Result<u64, CountError>
    ensures given { IfOk result (HasTokens input.items) }
    ensures found { (n : ℕ) → HasTokens input.items n → Gives NoMemory result n }
{
    one_reading();
    let text = Text::from_vec(input)?;
    match tokens(alloc, &text) {
        Ok(tokens) => Ok(tokens.as_slice().len() as u64),
        Err(VclError::NoMemory) => Err(CountError::NoMemory),
        Err(VclError::Refused { .. }) => Err(CountError::Refused),
    }
}
