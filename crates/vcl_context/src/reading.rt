// What each variable reads as.
ghost use Rattle.std.specs.Prelude.{◌≡◌, IfOk, option_map};
ghost use Rattle.vcl_values.specs.Values.{kind_of};
ghost use Rattle.http_heads.specs.Printed.{version_text};
ghost use Rattle.vcl_values.specs.declared.value.Value.TheVariants.{String, Backend as BackendOf};
ghost use Rattle.vcl_context.specs.Kinds.{kind_of_variable};
ghost use Rattle.vcl_context.specs.Reading.{value_of, chosen_or, request_value, object_value, fetch_request_value, fetch_response_value, response_value, time_or_unset};

use crate::context::{CachedObject, ClientRequest, Context, FetchRequest, FetchResponse};
use crate::variable::{
    FetchRequestVariable, FetchResponseVariable, ObjectVariable, RequestVariable, ResponseVariable,
    Variable,
};
use http_heads::ResponseHead;
use std::alloc::{AllocError, Global};
use units::Text;
use vcl_values::{Backend, Value};

/// The address that the cache answers at.
const OWN_ADDRESS: [u8; 4] = [127, 0, 0, 1];

/// What a time that isn't set reads as, in milliseconds.
const UNSET_TIME: i64 = -1000;

impl Context {
    /// What a variable reads as, a value of its type. `default` is the backend that a request is sent to where none is chosen.
    pub fn read(
        &self,
        alloc: Global,
        default: Option<&Backend>,
        variable: Variable,
    ) -> Result<Value, AllocError>
        ensures value { IfOk result (λ v. v ≡ value_of (option_map (λ b. b.now) default.entry) variable self.now) }
        ensures kind { kind_of (value_of (option_map (λ b. b.now) default.entry) variable self.now) ≡ kind_of_variable variable }
    {
        match variable {
            Variable::ClientIp => Ok(Value::Ip(self.peer.address)),
            Variable::ServerIp => Ok(Value::Ip(OWN_ADDRESS)),
            Variable::ClientIdentity => text_value(&self.peer.identity),
            Variable::Request(request) => read_request(alloc, default, &self.request, request),
            Variable::Object(object) => read_object(&self.object, object),
            Variable::FetchRequest(fetch) => {
                read_fetch_request(alloc, default, &self.fetch_request, fetch)
            }
            Variable::FetchResponse(fetched) => {
                read_fetch_response(alloc, &self.fetch_response, fetched)
            }
            Variable::Response(response) => read_response(alloc, &self.response, response),
            Variable::Body => body_value(&self.body),
            Variable::Jar => text_value(&self.jar),
        }
    }
}

fn read_request(
    alloc: Global,
    default: Option<&Backend>,
    request: &ClientRequest,
    variable: RequestVariable,
) -> Result<Value, AllocError>
    ensures { IfOk result (λ v. v ≡ request_value (option_map (λ b. b.now) default.entry) variable request.now) }
{
    match variable {
        RequestVariable::Method => text_value(&request.head.method),
        RequestVariable::Url => text_value(&request.head.url),
        RequestVariable::Proto => version_value(alloc, request.head.version),
        RequestVariable::Restarts => Ok(Value::Int(request.restarts)),
        RequestVariable::Ttl => Ok(time_value(request.ttl)),
        RequestVariable::Grace => Ok(time_value(request.grace)),
        RequestVariable::BackendHint => chosen_value(default, &request.backend_hint),
        RequestVariable::HashAlwaysMiss => Ok(Value::Bool(request.hash_always_miss)),
        RequestVariable::HashIgnoreBusy => Ok(Value::Bool(request.hash_ignore_busy)),
        RequestVariable::HashIgnoreVary => Ok(Value::Bool(request.hash_ignore_vary)),
        RequestVariable::IsHitmiss => Ok(Value::Bool(request.is_hitmiss)),
        RequestVariable::IsHitpass => Ok(Value::Bool(request.is_hitpass)),
    }
}

fn read_object(object: &CachedObject, variable: ObjectVariable) -> Result<Value, AllocError>
    ensures { IfOk result (λ v. v ≡ object_value variable object.now) }
{
    match variable {
        ObjectVariable::Status => Ok(Value::Int(i64::from(object.head.status))),
        ObjectVariable::Reason => text_value(&object.head.reason),
        ObjectVariable::Hits => Ok(Value::Int(object.hits)),
        ObjectVariable::Uncacheable => Ok(Value::Bool(object.uncacheable)),
        ObjectVariable::Ttl => Ok(Value::Duration(object.ttl)),
        ObjectVariable::Age => Ok(Value::Duration(object.age)),
        ObjectVariable::Grace => Ok(Value::Duration(object.grace)),
        ObjectVariable::Keep => Ok(Value::Duration(object.keep)),
    }
}

fn read_fetch_request(
    alloc: Global,
    default: Option<&Backend>,
    request: &FetchRequest,
    variable: FetchRequestVariable,
) -> Result<Value, AllocError>
    ensures { IfOk result (λ v. v ≡ fetch_request_value (option_map (λ b. b.now) default.entry) variable request.now) }
{
    match variable {
        FetchRequestVariable::Method => text_value(&request.head.method),
        FetchRequestVariable::Url => text_value(&request.head.url),
        FetchRequestVariable::Proto => version_value(alloc, request.head.version),
        FetchRequestVariable::Backend => chosen_value(default, &request.backend),
        FetchRequestVariable::Retries => Ok(Value::Int(request.retries)),
        FetchRequestVariable::Uncacheable => Ok(Value::Bool(request.uncacheable)),
        FetchRequestVariable::IsBgfetch => Ok(Value::Bool(request.is_bgfetch)),
    }
}

fn read_fetch_response(
    alloc: Global,
    response: &FetchResponse,
    variable: FetchResponseVariable,
) -> Result<Value, AllocError>
    ensures { IfOk result (λ v. v ≡ fetch_response_value variable response.now) }
{
    match variable {
        FetchResponseVariable::Status => Ok(Value::Int(i64::from(response.head.status))),
        FetchResponseVariable::Reason => text_value(&response.head.reason),
        FetchResponseVariable::Proto => version_value(alloc, response.head.version),
        FetchResponseVariable::Ttl => Ok(Value::Duration(response.ttl)),
        FetchResponseVariable::Grace => Ok(Value::Duration(response.grace)),
        FetchResponseVariable::Keep => Ok(Value::Duration(response.keep)),
        FetchResponseVariable::Uncacheable => Ok(Value::Bool(response.uncacheable)),
        FetchResponseVariable::Age => Ok(Value::Duration(response.age)),
        FetchResponseVariable::Was304 => Ok(Value::Bool(response.was_304)),
        FetchResponseVariable::Backend => backend_value(&response.backend),
    }
}

fn read_response(
    alloc: Global,
    head: &ResponseHead,
    variable: ResponseVariable,
) -> Result<Value, AllocError>
    ensures { IfOk result (λ v. v ≡ response_value variable head.now) }
{
    match variable {
        ResponseVariable::Status => Ok(Value::Int(i64::from(head.status))),
        ResponseVariable::Reason => text_value(&head.reason),
        ResponseVariable::Proto => version_value(alloc, head.version),
    }
}

fn text_value(text: &Text) -> Result<Value, AllocError>
    ensures { IfOk result (λ v. v ≡ String (Some text.now)) }
{
    Ok(Value::String(Some(text.copy()?)))
}

fn body_value(body: &Option<Text>) -> Result<Value, AllocError>
    ensures { IfOk result (λ v. v ≡ String body.now) }
{
    match body {
        None => Ok(Value::String(None)),
        Some(text) => text_value(text),
    }
}

fn version_value(alloc: Global, version: u8) -> Result<Value, AllocError>
    ensures { IfOk result (λ v. v ≡ String (Some (version_text version))) }
{
    let text: &[u8] = if version == 10 {
        b"HTTP/1.0"
    } else {
        b"HTTP/1.1"
    };
    Ok(Value::String(Some(Text::of(alloc, text)?)))
}

fn time_value(time: Option<i64>) -> Value
    ensures { result ≡ time_or_unset time }
{
    Value::Duration(time.unwrap_or(UNSET_TIME))
}

fn default_value(default: Option<&Backend>) -> Result<Value, AllocError>
    ensures { IfOk result (λ v. v ≡ BackendOf (option_map (λ b. b.now) default.entry)) }
{
    match default {
        Some(backend) => Ok(Value::Backend(Some(backend.copy()?))),
        None => Ok(Value::Backend(None)),
    }
}

// What a choice of a backend reads as.
fn chosen_value(default: Option<&Backend>, chosen: &Option<Backend>) -> Result<Value, AllocError>
    ensures { IfOk result (λ v. v ≡ BackendOf (chosen_or (option_map (λ b. b.now) default.entry) chosen.now)) }
{
    match chosen {
        Some(_) => backend_value(chosen),
        None => default_value(default),
    }
}

fn backend_value(backend: &Option<Backend>) -> Result<Value, AllocError>
    ensures { IfOk result (λ v. v ≡ BackendOf backend.now) }
{
    Ok(Value::Backend(backend_copy(backend)?))
}

/// The same backend again, or none; its texts are shared.
pub(crate) fn backend_copy(backend: &Option<Backend>) -> Result<Option<Backend>, AllocError>
    ensures { IfOk result (λ copy. copy ≡ backend.now) }
{
    match backend {
        None => Ok(None),
        Some(backend) => Ok(Some(backend.copy()?)),
    }
}
