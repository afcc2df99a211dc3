// What the subroutines of a request begin with.
ghost use Rattle.std.specs.Prelude.{◌≡◌, IfOk, OnOk};
ghost use Rattle.client_graph.specs.Contexts as due;

use http_heads::{RequestHead, ResponseHead};
use std::alloc::{AllocError, Global};
use std::mem;
use units::{Sequence, out_of_memory};
use vcl_context::{CachedObject, ClientRequest, Context, empty_context, peer_at};

/// What vcl_recv begins with at first.
pub fn first_context(
    alloc: Global,
    address: [u8; 4],
    head: RequestHead,
) -> Result<Context, AllocError>
    ensures { IfOk result (λ context. context ≡ due.first_context address head) }
{
    let Ok(mut context) = empty_context(alloc, address) else {
        return Err(out_of_memory(head));
    };
    drop(mem::replace(&mut context.request.head, head));
    Ok(context)
}

// The options that VCL sets are as at first.
fn request_again(restarts: u32, request: &mut ClientRequest)
    ensures { request.new ≡ due.request_again restarts request.old }
{
    request.restarts = i64::from(restarts);
    request.ttl = None;
    request.grace = None;
    request.hash_always_miss = false;
    request.hash_ignore_busy = false;
    request.hash_ignore_vary = false;
}

/// What vcl_recv begins with at a restart.
pub fn context_again(
    alloc: Global,
    restarts: u32,
    address: [u8; 4],
    context: &mut Context,
) -> Result<(), AllocError>
    ensures { OnOk result (context.new ≡ due.context_again restarts address context.old) }
{
    let peer = peer_at(alloc, address)?;
    drop(mem::replace(&mut context.peer, peer));
    request_again(restarts, &mut context.request);
    Ok(())
}

/// With no key.
pub fn forget_key(alloc: Global, context: &mut Context)
    ensures { context.new ≡ due.without_key context.old }
{
    drop(mem::replace(&mut context.key, Sequence::new(alloc)));
}

/// With what the newest lookup said of markers.
pub fn mark(is_hitmiss: bool, is_hitpass: bool, context: &mut Context)
    ensures { context.new ≡ due.with_markers is_hitmiss is_hitpass context.old }
{
    context.request.is_hitmiss = is_hitmiss;
    context.request.is_hitpass = is_hitpass;
}

pub fn put_object(object: CachedObject, context: &mut Context)
    ensures { context.new ≡ due.with_object object context.old }
{
    drop(mem::replace(&mut context.object, object));
}

pub fn put_response(response: ResponseHead, context: &mut Context)
    ensures { context.new ≡ due.with_response response context.old }
{
    drop(mem::replace(&mut context.response, response));
}

/// With a response without a body so far.
pub fn put_bare_response(response: ResponseHead, context: &mut Context)
    ensures { context.new ≡ due.with_bare_response response context.old }
{
    put_response(response, context);
    drop(context.body.take());
}
