// The probe of a backend.
ghost use Rattle.std.specs.Prelude.{◌≡◌, IfOk, option_map, unwrap_or};
ghost use Rattle.vcl_attributes.specs.Probes.{EachInRange, probe_with};

use crate::address::{host_of, port_of};
use crate::readers::{first_duration, first_integer, first_string};
use crate::window_numbers::numbers_of;
use std::alloc::{AllocError, Global};
use units::Text;
use vcl_tree::Attribute;

/// The probe of a backend: what is asked of it, how often, and by what it is well. Times are in milliseconds.
#[derive(Drop)]
pub struct Probe {
    pub backend: Text,
    pub host: Text,
    pub port: Text,
    pub url: Text,
    pub window: u32,
    pub threshold: u32,
    pub initial: u32,
    pub interval: i64,
    pub timeout: i64,
    /// The status of a good response.
    pub expected: i64,
}

// The text of an attribute, or what stands for it.
fn text_or(alloc: Global, said: Option<&Text>, usual: &[u8]) -> Result<Text, AllocError>
    ensures { IfOk result (λ text. text ≡ unwrap_or (option_map (λ t. t.now) said.entry) usual.now) }
{
    match said {
        Some(text) => text.copy(),
        None => Text::of(alloc, usual),
    }
}

/// The probe of a backend of this name and these attributes, by the probe's own.
pub fn probe_with(
    alloc: Global,
    name: &Text,
    attributes: &[Attribute],
    probe: &[Attribute],
) -> Result<Probe, AllocError>
    ensures { IfOk result (λ made. made ≡ probe_with name.now attributes.now probe.now) }
{
    let numbers = numbers_of(probe);
    Ok(Probe {
        backend: name.copy()?,
        host: Text::of(alloc, host_of(attributes))?,
        port: Text::of(alloc, port_of(attributes))?,
        url: text_or(alloc, first_string(b"url", probe), b"/")?,
        window: numbers.window,
        threshold: numbers.threshold,
        initial: numbers.initial,
        interval: first_duration(b"interval", probe).unwrap_or(5000),
        timeout: first_duration(b"timeout", probe).unwrap_or(2000),
        expected: first_integer(b"expected_response", probe).unwrap_or(200),
    })
}

/// The numbers of a probe's window are in range, whatever its attributes are.
pub fn each_in_range()
    ensures { EachInRange }
{}
