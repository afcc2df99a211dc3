// The attributes of backends and probes.
ghost use Rattle.std.specs.Prelude.{◌≡◌};
ghost use Rattle.vcl_language.specs.Attributes.{attribute_named};

use crate::names::{entry_at, row_of};
/// What an attribute is set to.
#[derive(Clone, Copy, Debug, PartialEq, Eq)]
pub enum AttributeKind {
    String,
    Integer,
    Duration,
    /// The name of a probe, or a probe's attributes in braces.
    Probe,
}

/// What has attributes.
#[derive(Clone, Copy)]
pub enum Owner {
    Backend,
    Probe,
}

// whose attribute it is, its name, and what it is set to
macro_rules! attributes {
    ($column:ident) => {
        $column! {
            "host" String;
            "port" String;
            "host_header" String;
            "connect_timeout" Duration;
            "first_byte_timeout" Duration;
            "between_bytes_timeout" Duration;
            "max_connections" Integer;
            "probe" Probe;
        }
    };
}

macro_rules! probe_attributes {
    ($column:ident) => {
        $column! {
            "url" String;
            "interval" Duration;
            "timeout" Duration;
            "window" Integer;
            "threshold" Integer;
            "initial" Integer;
            "expected_response" Integer;
        }
    };
}

macro_rules! names {
    ($($name:literal $kind:ident;)*) => { [$($name),*] };
}

macro_rules! entries {
    ($($name:literal $kind:ident;)*) => { [$(AttributeKind::$kind),*] };
}

pub static BACKEND_NAMES: [&str; 8] = attributes!(names);

pub static BACKEND_KINDS: [AttributeKind; 8] = attributes!(entries);

pub static PROBE_NAMES: [&str; 7] = probe_attributes!(names);

pub static PROBE_KINDS: [AttributeKind; 7] = probe_attributes!(entries);

/// What the attribute of this name is set to.
#[tactic(auto, unfolding(crate::specs::Attributes::attribute_named))]
pub fn attribute_named(owner: Owner, name: &[u8]) -> Option<AttributeKind>
    ensures { result ≡ attribute_named owner name.now }
{
    match owner {
        Owner::Backend => entry_at(&BACKEND_KINDS, row_of(&BACKEND_NAMES, name)),
        Owner::Probe => entry_at(&PROBE_KINDS, row_of(&PROBE_NAMES, name)),
    }
}
