// The lines of a transcript.
ghost use Rattle.std.specs.Prelude.{◌≡◌, ◌++◌, ◌∷◌, [], IfOk, codes};
ghost use Rattle.std.specs.Fmt.{decimal};
ghost use Rattle.backend_link.specs.Exchanges.{sent_text};
ghost use Rattle.replay.specs.Scene.{fetch_line, response_line};

use http_heads::{BackendRequest, print_request};
use std::alloc::{AllocError, Global};
use units::{push_number, quote};

// A request as it is sent.
fn write_request(alloc: Global, request: &BackendRequest) -> Result<Vec<u8>, AllocError>
    ensures { IfOk result (λ text. text.items ≡ sent_text request.now) }
{
    let head = print_request(alloc, &request.head)?;
    let mut text = Vec::new(alloc);
    text.extend_from_slice(head.bytes())?;
    text.extend_from_slice(request.body.bytes())?;
    Ok(text)
}

/// The line of an exchange that begins.
#[tactic(auto, unfolding(crate::specs::Scene::fetch_line))]
pub(crate) fn write_fetch_line(
    alloc: Global,
    number: u64,
    backend: &[u8],
    request: &BackendRequest,
) -> Result<Vec<u8>, AllocError>
    ensures { IfOk result (λ line. line.items ≡ fetch_line number backend.now (sent_text request.now)) }
{
    let text = write_request(alloc, request)?;
    let quoted = quote(alloc, text.as_slice())?;
    let mut line = Vec::new(alloc);
    line.extend_from_slice(b"fetch ")?;
    push_number(&mut line, alloc, number)?;
    line.extend_from_slice(b" ")?;
    line.extend_from_slice(backend)?;
    line.extend_from_slice(b" ")?;
    line.extend_from_slice(quoted.bytes())?;
    line.extend_from_slice(b"\n")?;
    Ok(line)
}

/// The line of a response, or of an answer of the console, which is client 0.
#[tactic(auto, unfolding(crate::specs::Scene::response_line))]
pub(crate) fn write_response_line(
    alloc: Global,
    client: u32,
    response: &[u8],
) -> Result<Vec<u8>, AllocError>
    ensures { IfOk result (λ line. line.items ≡ response_line client response.now) }
{
    let quoted = quote(alloc, response)?;
    let mut line = Vec::new(alloc);
    if client == 0 {
        line.extend_from_slice(b"cli")?;
    } else {
        line.extend_from_slice(b"resp ")?;
        push_number(&mut line, alloc, u64::from(client))?;
    }
    line.extend_from_slice(b" ")?;
    line.extend_from_slice(quoted.bytes())?;
    line.extend_from_slice(b"\n")?;
    Ok(line)
}
