// What the subroutines of a fetch begin with.
ghost use Rattle.std.specs.Prelude.{◌≡◌, ◌==◌, option_map, IfOk};
ghost use Rattle.std.specs.List.{list_all};
ghost use Rattle.fetch_graph.specs.Contexts as due;

use directors::{DirectorKind, Member, Target};
use freshness::Timing;
use http_heads::{RequestHead, ResponseHead};
use std::alloc::{AllocError, Global};
use std::mem;
use units::{Text, out_of_memory};
use vcl_context::{Context, FetchRequest, FetchResponse, empty_context};
use vcl_values::Backend;

/// The last moment that is counted: the end of the year 9999.
const LAST_MOMENT: u64 = 253_402_300_799_999;

/// What vcl_backend_fetch begins with at first: the request of the fetch for the client of this address.
pub fn first_context(
    alloc: Global,
    address: [u8; 4],
    fetch_request: FetchRequest,
) -> Result<Context, AllocError>
    ensures { IfOk result (λ context. context ≡ due.first_context address fetch_request) }
{
    let Ok(mut context) = empty_context(alloc, address) else {
        return Err(out_of_memory(fetch_request));
    };
    drop(mem::replace(&mut context.fetch_request, fetch_request));
    Ok(context)
}

/// A response that has no body of VCL's own so far.
pub fn set_response(fetch_response: FetchResponse, context: &mut Context)
    ensures { context.new ≡ due.with_response fetch_response context.old }
{
    drop(mem::replace(&mut context.fetch_response, fetch_response));
    drop(mem::replace(&mut context.body, None));
}

/// Another head of the request.
pub fn set_head(head: RequestHead, context: &mut Context)
    ensures { context.new ≡ due.with_head head context.old }
{
    drop(mem::replace(&mut context.fetch_request.head, head));
}

/// The number of tries behind the first.
pub fn set_tries(retries: u32, context: &mut Context)
    ensures { context.new ≡ due.with_retries retries context.old }
{
    context.fetch_request.retries = i64::from(retries);
}

fn has_no_weight(members: &[Member]) -> bool
    ensures { result ≡ list_all (λ member. member.weight == 0) members.now }
{
    members.iter().all(|member| member.weight == 0)
}

fn is_none(target: &Target) -> bool
    ensures { result ≡ due.is_none target.now }
{
    match target.kind {
        DirectorKind::One => has_no_weight(target.members.as_slice()),
        _ => false,
    }
}

fn key_for(kind: DirectorKind, text: &Text) -> Result<Option<Text>, AllocError>
    ensures { IfOk result (λ key. key ≡ due.key_for kind text.now) }
{
    match kind {
        DirectorKind::Hash => Ok(Some(text.copy()?)),
        _ => Ok(None),
    }
}

fn backend_of(text: &Text, target: &Target) -> Result<Backend, AllocError>
    ensures { IfOk result (λ backend. backend ≡ due.backend_of text.now target.now) }
{
    Ok(Backend {
        name: target.name.copy()?,
        key: key_for(target.kind, text)?,
        declared_none: is_none(target),
    })
}

/// The backend or director that the client's VCL chose, if it chose one.
pub fn hinted(text: &Text, hint: &Option<Target>) -> Result<Option<Backend>, AllocError>
    ensures { IfOk result (λ backend. backend ≡ option_map (due.backend_of text.now) hint.now) }
{
    match hint {
        Some(target) => Ok(Some(backend_of(text, target)?)),
        None => Ok(None),
    }
}

fn named(picked: &Option<Text>) -> Result<Option<Backend>, AllocError>
    ensures { IfOk result (λ backend. backend ≡ option_map due.backend_named picked.now) }
{
    match picked {
        Some(name) => Ok(Some(Backend {
            name: name.copy()?,
            key: None,
            declared_none: false,
        })),
        None => Ok(None),
    }
}

// The nearest number that 64 bits hold.
fn in_range(x: i128) -> i64
    ensures { result ≡ due.in_range x }
{
    x.min(i128::from(i64::MAX)).max(i128::from(i64::MIN)) as i64
}

fn age_at(origin: i64, moment: u64) -> i64
    ensures { result ≡ due.age_at origin moment }
{
    in_range(i128::from(moment.min(LAST_MOMENT)) - i128::from(origin))
}

/// A response with its times at a moment, as a subroutine finds it.
pub fn response_at(
    head: ResponseHead,
    timing: Timing,
    moment: u64,
    uncacheable: bool,
    was_304: bool,
    picked: &Option<Text>,
) -> Result<FetchResponse, AllocError>
    ensures { IfOk result (λ response. response ≡ due.response_with head timing (due.age_at timing.origin moment) uncacheable was_304 picked.now) }
{
    Ok(FetchResponse {
        head,
        ttl: timing.ttl,
        grace: timing.grace,
        keep: timing.keep,
        uncacheable,
        age: age_at(timing.origin, moment),
        was_304,
        backend: named(picked)?,
    })
}
