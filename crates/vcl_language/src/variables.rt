// The variables (the Varnish Reference Manual, "VCL-Variables").
ghost use Rattle.std.specs.Prelude.{◌≡◌};
ghost use Rattle.vcl_language.specs.Variables.{variable_named, field_named, plain_named};

use crate::names::{entry_at, field_row, row_of};
use crate::scope::Scope;
use vcl_values::Kind;

/// A variable: its type, and the subroutines in which it may be read, set with `=`, set with `+=`, and unset.
#[derive(Clone, Copy)]
pub struct Variable {
    pub kind: Kind,
    pub read: Scope,
    pub set: Scope,
    pub append: Scope,
    pub unset: Scope,
}

// the name, its type, and where it is read, set, added to, unset
macro_rules! variables {
    ($column:ident) => {
        $column! {
            "client.ip" Ip Traffic Nowhere Nowhere Nowhere;
            "server.ip" Ip Traffic Nowhere Nowhere Nowhere;
            "client.identity" String Client Client Client Nowhere;
            "req.method" String Client Client Client Nowhere;
            "req.url" String Client Client Client Nowhere;
            "req.proto" String Client Nowhere Nowhere Nowhere;
            "req.restarts" Int Client Nowhere Nowhere Nowhere;
            "req.ttl" Duration Client Client Client Nowhere;
            "req.grace" Duration Client Client Client Nowhere;
            "req.backend_hint" Backend Client Client Client Nowhere;
            "req.hash_always_miss" Bool Client Client Client Nowhere;
            "req.hash_ignore_busy" Bool Client Client Client Nowhere;
            "req.hash_ignore_vary" Bool Client Client Client Nowhere;
            "req.is_hitmiss" Bool Client Nowhere Nowhere Nowhere;
            "req.is_hitpass" Bool Client Nowhere Nowhere Nowhere;
            "obj.status" Int Hit Nowhere Nowhere Nowhere;
            "obj.reason" String Hit Nowhere Nowhere Nowhere;
            "obj.hits" Int HitDeliver Nowhere Nowhere Nowhere;
            "obj.uncacheable" Bool HitDeliver Nowhere Nowhere Nowhere;
            "obj.ttl" Duration HitDeliver Nowhere Nowhere Nowhere;
            "obj.age" Duration HitDeliver Nowhere Nowhere Nowhere;
            "obj.grace" Duration HitDeliver Nowhere Nowhere Nowhere;
            "obj.keep" Duration HitDeliver Nowhere Nowhere Nowhere;
            "bereq.method" String Backend Backend Backend Nowhere;
            "bereq.url" String Backend Backend Backend Nowhere;
            "bereq.proto" String Backend Nowhere Nowhere Nowhere;
            "bereq.backend" Backend Backend Backend Backend Nowhere;
            "bereq.retries" Int Backend Nowhere Nowhere Nowhere;
            "bereq.uncacheable" Bool Backend Nowhere Nowhere Nowhere;
            "bereq.is_bgfetch" Bool Backend Nowhere Nowhere Nowhere;
            "beresp.status" Int Response Response Response Nowhere;
            "beresp.reason" String Response Response Response Nowhere;
            "beresp.proto" String Response Nowhere Nowhere Nowhere;
            "beresp.ttl" Duration Response Response Response Nowhere;
            "beresp.grace" Duration Response Response Response Nowhere;
            "beresp.keep" Duration Response Response Response Nowhere;
            "beresp.uncacheable" Bool Response Response Response Nowhere;
            "beresp.age" Duration Response Nowhere Nowhere Nowhere;
            "beresp.was_304" Bool Response Nowhere Nowhere Nowhere;
            "beresp.backend" Backend Response Nowhere Nowhere Nowhere;
            "beresp.body" String Nowhere BackendError Nowhere Nowhere;
            "resp.status" Int DeliverSynth DeliverSynth DeliverSynth Nowhere;
            "resp.reason" String DeliverSynth DeliverSynth DeliverSynth Nowhere;
            "resp.proto" String DeliverSynth Nowhere Nowhere Nowhere;
            "resp.body" String Nowhere Synth Nowhere Nowhere;
        }
    };
}

// what stands before the name of a field, and the same columns
macro_rules! fields {
    ($column:ident) => {
        $column! {
            "req.http." String Client Client Client Client;
            "obj.http." String Hit Nowhere Nowhere Nowhere;
            "bereq.http." String Backend Backend Backend Backend;
            "beresp.http." String Response Response Response Response;
            "resp.http." String DeliverSynth DeliverSynth DeliverSynth DeliverSynth;
        }
    };
}

macro_rules! names {
    ($($name:literal $kind:ident $read:ident $set:ident $append:ident $unset:ident;)*) => { [$($name),*] };
}

macro_rules! entries {
    ($($name:literal $kind:ident $read:ident $set:ident $append:ident $unset:ident;)*) => {
        [$(Variable {
            kind: Kind::$kind,
            read: Scope::$read,
            set: Scope::$set,
            append: Scope::$append,
            unset: Scope::$unset,
        }),*]
    };
}

pub static VARIABLE_NAMES: [&str; 45] = variables!(names);

pub static VARIABLES: [Variable; 45] = variables!(entries);

pub static FIELD_NAMES: [&str; 5] = fields!(names);

pub static FIELDS: [Variable; 5] = fields!(entries);

/// The variable of this name: one of its own, or a field, whose name stands behind `http.` and isn't empty.
#[tactic(auto, unfolding(crate::specs::Variables::variable_named))]
pub fn variable_named(name: &[u8]) -> Option<Variable>
    ensures { result ≡ variable_named name.now }
{
    match plain_named(name) {
        Some(variable) => Some(variable),
        None => field_named(name),
    }
}

#[tactic(auto, unfolding(crate::specs::Variables::plain_named))]
fn plain_named(name: &[u8]) -> Option<Variable>
    ensures { result ≡ plain_named name.now }
{
    entry_at(&VARIABLES, row_of(&VARIABLE_NAMES, name))
}

#[tactic(auto, unfolding(crate::specs::Variables::field_named))]
fn field_named(name: &[u8]) -> Option<Variable>
    ensures { result ≡ field_named name.now }
{
    entry_at(&FIELDS, field_row(&FIELD_NAMES, name))
}
