// Where a round begins.
ghost use Rattle.std.specs.Prelude.{◌≡◌, IfOk};
ghost use Rattle.client_graph.specs.Opening.{first_head as head_at_first, opening};

use crate::contexts::first_context;
use crate::forwarding::forward;
use crate::{Next, Round, State};
use cache_law::rounds::Request;
use http_heads::RequestHead;
use seen_request::see;
use std::alloc::{AllocError, Global};
use units::out_of_memory;

// The head that vcl_recv gets of the one that came.
fn first_head(alloc: Global, peer: [u8; 4], head: &RequestHead) -> Result<RequestHead, AllocError>
    ensures { IfOk result (λ first. first ≡ head_at_first peer head.now) }
{
    let RequestHead {
        method,
        url,
        version,
        fields,
    } = see(alloc, head)?;
    let Ok(fields) = forward(alloc, fields, peer) else {
        return Err(out_of_memory((method, url)));
    };
    Ok(RequestHead {
        method,
        url,
        version,
        fields,
    })
}

/// The first step of the round that has this number, under the VCL of this number, for the request of the client with
/// this address: vcl_recv.
pub fn open(
    alloc: Global,
    number: u64,
    vcl: u32,
    request: Request,
    peer: [u8; 4],
) -> Result<Next, AllocError>
    ensures { IfOk result (λ next. next ≡ opening number vcl request peer) }
{
    let Ok(head) = first_head(alloc, peer, &request.head) else {
        return Err(out_of_memory(request));
    };
    let Ok(context) = first_context(alloc, peer, head) else {
        return Err(out_of_memory(request));
    };
    Ok(Next::Enter {
        state: State::Recv,
        context,
        round: Round {
            number,
            vcl,
            peer,
            asked: request,
            restarts: 0,
            background: None,
        },
    })
}
