// A body at the front of a text that is there whole.
ghost use Rattle.std.specs.Prelude.{◌≡◌, ◌≢◌, ◌≤◌, ℕ, List, drop, length, IfOk, IfErr, IsErrOf};
ghost use Rattle.http_bodies.specs.Bodies.{IsBody, BeginsWith};
ghost use Rattle.http_bodies.specs.Answers.{CanEndWithin, IsBroken};
ghost use Rattle.http_bodies.specs.declared.framing.BodyError.{BodyError};

use crate::{BodyError, BodyReader, Framing};
use std::alloc::Global;
use units::Text;

/// The body with this framing at the front of the text, of at most `limit` bytes, and how many bytes of the text it takes.
pub fn read_body(
    alloc: Global,
    framing: Framing,
    limit: u64,
    text: &[u8],
) -> Result<(Text, usize), BodyError>
    ensures found { IfOk result (λ r. BeginsWith framing text.now r.0 (drop r.1 text.now) × (r.1 ≤ length text.now) × (length r.0 ≤ limit)) }
    ensures none { IfErr result (λ e. e ≢ BodyError.NoMemory → (body rest : List ℕ) → BeginsWith framing text.now body rest → length body ≤ limit → ⊥) }
    ensures early { IsErrOf result BodyError.Early → CanEndWithin (IsBody framing) limit text.now }
    ensures broken { IfErr result (λ e. e ≢ BodyError.Early → e ≢ BodyError.NoMemory → IsBroken framing limit text.now e) }
{
    let mut reader = BodyReader::of(alloc, framing, limit);
    let count = reader.feed(text)?;
    let body = reader.finish()?;
    Ok((body, count))
}
