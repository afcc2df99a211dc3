// Setting variables.
ghost use Rattle.std.specs.Prelude.{◌≡◌, true, unwrap_or};
ghost use Rattle.vcl_values.specs.Values.{kind_of};
ghost use Rattle.vcl_context.specs.Kinds.{accepts};
ghost use Rattle.vcl_context.specs.Setting.{variable_set};
ghost use Rattle.vcl_context.specs.Setting as due;
ghost use Rattle.vcl_context.specs.Outcomes.{Sets};

use crate::carried::{is_reason, is_status, is_target, is_token};
use crate::context::{ClientRequest, Context, FetchRequest, FetchResponse};
use crate::reading::backend_copy;
use crate::reasons::reason_of;
use crate::variable::{
    FetchRequestVariable, FetchResponseVariable, RequestVariable, ResponseVariable, Variable,
};
use http_heads::{RequestHead, ResponseHead};
use std::alloc::{AllocError, Global};
use units::Text;
use vcl_values::{MAX_TEXT, Value};

/// What a `set` comes to.
#[derive(Clone, Copy, Debug, PartialEq, Eq)]
pub enum Setting {
    Done,
    /// Nothing is set, and the subroutine ends as `fail`.
    Refused,
}

impl Context {
    /// Sets a variable to a value that it accepts, by `specs/Setting.antt`.
    pub fn set(
        &mut self,
        alloc: Global,
        variable: Variable,
        value: &Value,
    ) -> Result<Setting, AllocError>
        requires { accepts variable (kind_of value.now) ≡ true }
        ensures { Sets result self.old self.new (variable_set variable value.now self.old) }
    {
        match variable {
            Variable::ClientIdentity => {
                self.peer.identity = value.text(alloc)?;
                Ok(Setting::Done)
            }
            Variable::Request(request) => set_request(alloc, &mut self.request, request, value),
            Variable::FetchRequest(fetch) => {
                set_fetch_request(alloc, &mut self.fetch_request, fetch, value)
            }
            Variable::FetchResponse(fetched) => {
                set_fetch_response(alloc, &mut self.fetch_response, fetched, value)
            }
            Variable::Response(response) => {
                set_response(alloc, &mut self.response, response, value)
            }
            Variable::Body => {
                self.body = Some(value.text(alloc)?);
                Ok(Setting::Done)
            }
            Variable::Jar => self.set_jar(alloc, value),
            Variable::ClientIp | Variable::ServerIp | Variable::Object(_) => unreachable!(),
        }
    }

    fn set_jar(&mut self, alloc: Global, value: &Value) -> Result<Setting, AllocError>
        ensures { Sets result self.old self.new (due.jar_set value.now self.old) }
    {
        let text = value.text(alloc)?;
        if text.bytes().len() > MAX_TEXT {
            return Ok(Setting::Refused);
        }
        self.jar = text;
        Ok(Setting::Done)
    }
}

fn set_request(
    alloc: Global,
    request: &mut ClientRequest,
    variable: RequestVariable,
    value: &Value,
) -> Result<Setting, AllocError>
    requires { accepts (Variable.Request variable) (kind_of value.now) ≡ true }
    ensures { Sets result request.old request.new (due.request_set variable value.now request.old) }
{
    match (variable, value) {
        (RequestVariable::Method, _) => return set_method(alloc, &mut request.head, value),
        (RequestVariable::Url, _) => return set_url(alloc, &mut request.head, value),
        (RequestVariable::Ttl, Value::Duration(time)) => request.ttl = time_if_set(*time),
        (RequestVariable::Grace, Value::Duration(time)) => request.grace = time_if_set(*time),
        (RequestVariable::BackendHint, Value::Backend(backend)) => {
            request.backend_hint = backend_copy(backend)?;
        }
        (RequestVariable::HashAlwaysMiss, Value::Bool(truth)) => request.hash_always_miss = *truth,
        (RequestVariable::HashIgnoreBusy, Value::Bool(truth)) => request.hash_ignore_busy = *truth,
        (RequestVariable::HashIgnoreVary, Value::Bool(truth)) => request.hash_ignore_vary = *truth,
        _ => unreachable!(),
    }
    Ok(Setting::Done)
}

fn set_fetch_request(
    alloc: Global,
    request: &mut FetchRequest,
    variable: FetchRequestVariable,
    value: &Value,
) -> Result<Setting, AllocError>
    requires { accepts (Variable.FetchRequest variable) (kind_of value.now) ≡ true }
    ensures { Sets result request.old request.new (due.fetch_request_set variable value.now request.old) }
{
    match (variable, value) {
        (FetchRequestVariable::Method, _) => set_method(alloc, &mut request.head, value),
        (FetchRequestVariable::Url, _) => set_url(alloc, &mut request.head, value),
        (FetchRequestVariable::Backend, Value::Backend(backend)) => {
            request.backend = backend_copy(backend)?;
            Ok(Setting::Done)
        }
        _ => unreachable!(),
    }
}

fn set_fetch_response(
    alloc: Global,
    response: &mut FetchResponse,
    variable: FetchResponseVariable,
    value: &Value,
) -> Result<Setting, AllocError>
    requires { accepts (Variable.FetchResponse variable) (kind_of value.now) ≡ true }
    ensures { Sets result response.old response.new (due.fetch_response_set variable value.now response.old) }
{
    match (variable, value) {
        (FetchResponseVariable::Status, Value::Int(number)) => {
            return set_status(alloc, &mut response.head, *number);
        }
        (FetchResponseVariable::Reason, _) => return set_reason(alloc, &mut response.head, value),
        (FetchResponseVariable::Ttl, Value::Duration(time)) => response.ttl = time_from_none(*time),
        (FetchResponseVariable::Grace, Value::Duration(time)) => response.grace = time_from_none(
            *time,
        ),
        (FetchResponseVariable::Keep, Value::Duration(time)) => response.keep = time_from_none(
            *time,
        ),
        (FetchResponseVariable::Uncacheable, Value::Bool(truth)) => {
            response.uncacheable = response.uncacheable || *truth;
        }
        _ => unreachable!(),
    }
    Ok(Setting::Done)
}

fn set_response(
    alloc: Global,
    head: &mut ResponseHead,
    variable: ResponseVariable,
    value: &Value,
) -> Result<Setting, AllocError>
    requires { accepts (Variable.Response variable) (kind_of value.now) ≡ true }
    ensures { Sets result head.old head.new (due.response_set variable value.now head.old) }
{
    match (variable, value) {
        (ResponseVariable::Status, Value::Int(number)) => set_status(alloc, head, *number),
        (ResponseVariable::Reason, _) => set_reason(alloc, head, value),
        _ => unreachable!(),
    }
}

fn set_method(alloc: Global, head: &mut RequestHead, value: &Value) -> Result<Setting, AllocError>
    ensures { Sets result head.old head.new (due.method_set value.now head.old) }
{
    let text = value.text(alloc)?;
    if !is_token(text.bytes()) {
        return Ok(Setting::Refused);
    }
    head.method = text;
    Ok(Setting::Done)
}

fn set_url(alloc: Global, head: &mut RequestHead, value: &Value) -> Result<Setting, AllocError>
    ensures { Sets result head.old head.new (due.url_set value.now head.old) }
{
    let text = value.text(alloc)?;
    if !is_target(text.bytes()) {
        return Ok(Setting::Refused);
    }
    head.url = text;
    Ok(Setting::Done)
}

fn set_reason(alloc: Global, head: &mut ResponseHead, value: &Value) -> Result<Setting, AllocError>
    ensures { Sets result head.old head.new (due.reason_set value.now head.old) }
{
    let text = value.text(alloc)?;
    if !is_reason(text.bytes()) {
        return Ok(Setting::Refused);
    }
    head.reason = text;
    Ok(Setting::Done)
}

// The reason that goes with the status, where there is one.
fn put_reason(head: &mut ResponseHead, reason: Option<Text>)
    ensures { head.new ≡ record head.old { reason = unwrap_or reason head.old.reason } }
{
    match reason {
        Some(reason) => head.reason = reason,
        None => {}
    }
}

fn set_status(alloc: Global, head: &mut ResponseHead, number: i64) -> Result<Setting, AllocError>
    ensures { Sets result head.old head.new (due.status_of_number number head.old) }
{
    if !is_status(number) {
        return Ok(Setting::Refused);
    }
    let reason = reason_of(alloc, number)?;
    put_reason(head, reason);
    head.status = number.unsigned_abs() as u16;
    Ok(Setting::Done)
}

// A negative time unsets.
fn time_if_set(time: i64) -> Option<i64>
    ensures { result ≡ due.time_if_set time }
{
    if time < 0 { None } else { Some(time) }
}

// A negative time is none.
fn time_from_none(time: i64) -> i64
    ensures { result ≡ due.time_from_none time }
{
    if time < 0 { 0 } else { time }
}
