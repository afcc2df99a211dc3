// The types of variables.
ghost use Rattle.std.specs.Prelude.{◌≡◌};
ghost use Rattle.vcl_context.specs.Kinds.{kind_of_variable, request_kind, object_kind, fetch_request_kind, fetch_response_kind, response_kind};

use vcl_context::{
    FetchRequestVariable, FetchResponseVariable, ObjectVariable, RequestVariable, ResponseVariable,
    Variable,
};
use vcl_values::Kind;

/// The type of a variable.
pub fn kind_of_variable(variable: Variable) -> Kind
    ensures { result ≡ kind_of_variable variable }
{
    match variable {
        Variable::ClientIp | Variable::ServerIp => Kind::Ip,
        Variable::ClientIdentity | Variable::Body | Variable::Jar => Kind::String,
        Variable::Request(request) => request_kind(request),
        Variable::Object(object) => object_kind(object),
        Variable::FetchRequest(fetch) => fetch_request_kind(fetch),
        Variable::FetchResponse(fetched) => fetch_response_kind(fetched),
        Variable::Response(response) => response_kind(response),
    }
}

fn request_kind(variable: RequestVariable) -> Kind
    ensures { result ≡ request_kind variable }
{
    match variable {
        RequestVariable::Method | RequestVariable::Url | RequestVariable::Proto => Kind::String,
        RequestVariable::Restarts => Kind::Int,
        RequestVariable::Ttl | RequestVariable::Grace => Kind::Duration,
        RequestVariable::BackendHint => Kind::Backend,
        _ => Kind::Bool,
    }
}

fn object_kind(variable: ObjectVariable) -> Kind
    ensures { result ≡ object_kind variable }
{
    match variable {
        ObjectVariable::Status | ObjectVariable::Hits => Kind::Int,
        ObjectVariable::Reason => Kind::String,
        ObjectVariable::Uncacheable => Kind::Bool,
        _ => Kind::Duration,
    }
}

fn fetch_request_kind(variable: FetchRequestVariable) -> Kind
    ensures { result ≡ fetch_request_kind variable }
{
    match variable {
        FetchRequestVariable::Backend => Kind::Backend,
        FetchRequestVariable::Retries => Kind::Int,
        FetchRequestVariable::Uncacheable | FetchRequestVariable::IsBgfetch => Kind::Bool,
        _ => Kind::String,
    }
}

fn fetch_response_kind(variable: FetchResponseVariable) -> Kind
    ensures { result ≡ fetch_response_kind variable }
{
    match variable {
        FetchResponseVariable::Status => Kind::Int,
        FetchResponseVariable::Ttl
        | FetchResponseVariable::Grace
        | FetchResponseVariable::Keep
        | FetchResponseVariable::Age => Kind::Duration,
        FetchResponseVariable::Uncacheable | FetchResponseVariable::Was304 => Kind::Bool,
        FetchResponseVariable::Backend => Kind::Backend,
        _ => Kind::String,
    }
}

fn response_kind(variable: ResponseVariable) -> Kind
    ensures { result ≡ response_kind variable }
{
    match variable {
        ResponseVariable::Status => Kind::Int,
        _ => Kind::String,
    }
}
