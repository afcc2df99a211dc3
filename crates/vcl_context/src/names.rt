// The names of variables.
ghost use Rattle.std.specs.Prelude.{◌≡◌, map, position, option_map, option_and_then, slice_get};
ghost use Rattle.std.specs.Str.{bytes_eq};
ghost use Rattle.std.specs.Option.{option_copied};
ghost use Rattle.vcl_language.specs.declared.variables.TheConstants.{VARIABLES as ROWS, VARIABLE_NAMES, FIELDS, FIELD_NAMES};
ghost use Rattle.vcl_context.specs.Names.{variable_of, field_of, field_among, behind, is_set_somewhere};
ghost use Rattle.vcl_context.specs.Kinds.{kind_of_variable, is_set, has_set_fields};

use crate::variable::{
    FetchRequestVariable, FetchResponseVariable, Message, ObjectVariable, RequestVariable,
    ResponseVariable, Variable,
};

// the name, and the variable
macro_rules! variables {
    ($column:ident) => {
        $column! {
            "client.ip" Variable::ClientIp;
            "server.ip" Variable::ServerIp;
            "client.identity" Variable::ClientIdentity;
            "req.method" Variable::Request(RequestVariable::Method);
            "req.url" Variable::Request(RequestVariable::Url);
            "req.proto" Variable::Request(RequestVariable::Proto);
            "req.restarts" Variable::Request(RequestVariable::Restarts);
            "req.ttl" Variable::Request(RequestVariable::Ttl);
            "req.grace" Variable::Request(RequestVariable::Grace);
            "req.backend_hint" Variable::Request(RequestVariable::BackendHint);
            "req.hash_always_miss" Variable::Request(RequestVariable::HashAlwaysMiss);
            "req.hash_ignore_busy" Variable::Request(RequestVariable::HashIgnoreBusy);
            "req.hash_ignore_vary" Variable::Request(RequestVariable::HashIgnoreVary);
            "req.is_hitmiss" Variable::Request(RequestVariable::IsHitmiss);
            "req.is_hitpass" Variable::Request(RequestVariable::IsHitpass);
            "obj.status" Variable::Object(ObjectVariable::Status);
            "obj.reason" Variable::Object(ObjectVariable::Reason);
            "obj.hits" Variable::Object(ObjectVariable::Hits);
            "obj.uncacheable" Variable::Object(ObjectVariable::Uncacheable);
            "obj.ttl" Variable::Object(ObjectVariable::Ttl);
            "obj.age" Variable::Object(ObjectVariable::Age);
            "obj.grace" Variable::Object(ObjectVariable::Grace);
            "obj.keep" Variable::Object(ObjectVariable::Keep);
            "bereq.method" Variable::FetchRequest(FetchRequestVariable::Method);
            "bereq.url" Variable::FetchRequest(FetchRequestVariable::Url);
            "bereq.proto" Variable::FetchRequest(FetchRequestVariable::Proto);
            "bereq.backend" Variable::FetchRequest(FetchRequestVariable::Backend);
            "bereq.retries" Variable::FetchRequest(FetchRequestVariable::Retries);
            "bereq.uncacheable" Variable::FetchRequest(FetchRequestVariable::Uncacheable);
            "bereq.is_bgfetch" Variable::FetchRequest(FetchRequestVariable::IsBgfetch);
            "beresp.status" Variable::FetchResponse(FetchResponseVariable::Status);
            "beresp.reason" Variable::FetchResponse(FetchResponseVariable::Reason);
            "beresp.proto" Variable::FetchResponse(FetchResponseVariable::Proto);
            "beresp.ttl" Variable::FetchResponse(FetchResponseVariable::Ttl);
            "beresp.grace" Variable::FetchResponse(FetchResponseVariable::Grace);
            "beresp.keep" Variable::FetchResponse(FetchResponseVariable::Keep);
            "beresp.uncacheable" Variable::FetchResponse(FetchResponseVariable::Uncacheable);
            "beresp.age" Variable::FetchResponse(FetchResponseVariable::Age);
            "beresp.was_304" Variable::FetchResponse(FetchResponseVariable::Was304);
            "beresp.backend" Variable::FetchResponse(FetchResponseVariable::Backend);
            "beresp.body" Variable::Body;
            "resp.status" Variable::Response(ResponseVariable::Status);
            "resp.reason" Variable::Response(ResponseVariable::Reason);
            "resp.proto" Variable::Response(ResponseVariable::Proto);
            "resp.body" Variable::Body;
        }
    };
}

// what stands before the name of a field, and the message
macro_rules! messages {
    ($column:ident) => {
        $column! {
            "req.http." Message::Request;
            "obj.http." Message::Object;
            "bereq.http." Message::FetchRequest;
            "beresp.http." Message::FetchResponse;
            "resp.http." Message::Response;
        }
    };
}

macro_rules! names {
    ($($name:literal $entry:expr;)*) => { [$($name),*] };
}

macro_rules! entries {
    ($($name:literal $entry:expr;)*) => { [$($entry),*] };
}

pub static NAMES: [&str; 45] = variables!(names);

pub static VARIABLES: [Variable; 45] = variables!(entries);

pub static FRONTS: [&str; 5] = messages!(names);

pub static MESSAGES: [Message; 5] = messages!(entries);

/// The variable of this name, if it isn't a field.
#[tactic(auto, unfolding(crate::specs::Names::variable_of))]
pub fn variable_of(name: &[u8]) -> Option<Variable>
    ensures { result ≡ variable_of name.now }
{
    entry_at(&VARIABLES, row_of(&NAMES, name))
}

// The number of the row with this name.
fn row_of(names: &[&str], name: &[u8]) -> Option<usize>
    ensures { result ≡ position (λ known. bytes_eq known.now name.now) names.now }
{
    names.iter().position(|known| known.as_bytes() == name)
}

fn entry_at(entries: &[Variable], row: Option<usize>) -> Option<Variable>
    ensures { result ≡ option_and_then (λ k. slice_get entries.now k) row }
{
    entries.get(row?).copied()
}

/// The message of a field of this name, and the field's own name.
#[tactic(auto, unfolding(crate::specs::Names::field_of))]
pub fn field_of(name: &[u8]) -> Option<(Message, &[u8])>
    ensures { field_of name.now ≡ option_map (λ field. (field.0, field.1.now)) result }
{
    field_among(&FRONTS, &MESSAGES, name)
}

fn field_among<'n>(
    fronts: &[&str],
    messages: &[Message],
    name: &'n [u8],
) -> Option<(Message, &'n [u8])>
    ensures { field_among (map (λ front. front.now) fronts.now) messages.now name.now ≡ option_map (λ field. (field.0, field.1.now)) result }
{
    let [front, fronts @ ..] = fronts else {
        return None;
    };
    let [message, messages @ ..] = messages else {
        return None;
    };
    match behind(front.as_bytes(), name) {
        Some(field) => Some((*message, field)),
        None => field_among(fronts, messages, name),
    }
}

// What stands behind a front, if anything does.
fn behind<'n>(front: &[u8], name: &'n [u8]) -> Option<&'n [u8]>
    ensures { behind front.now name.now ≡ option_copied result }
{
    match front {
        [] => match name {
            [] => None,
            [_, ..] => Some(name),
        },
        [first, front @ ..] => match name {
            [] => None,
            [byte, name @ ..] => {
                if *first == *byte {
                    behind(front, name)
                } else {
                    None
                }
            }
        },
    }
}

/// The variables and fields are those of the language, with the same types, and are set where the language lets them be set
/// somewhere.
pub fn all_variables()
    ensures names { map (λ name. name.now) NAMES ≡ map (λ name. name.now) VARIABLE_NAMES }
    ensures kinds { map kind_of_variable VARIABLES ≡ map (λ row. row.kind) ROWS }
    ensures set { map is_set VARIABLES ≡ map is_set_somewhere ROWS }
    ensures fronts { map (λ front. front.now) FRONTS ≡ map (λ front. front.now) FIELD_NAMES }
    ensures fields { map has_set_fields MESSAGES ≡ map is_set_somewhere FIELDS }
{}
