// Where a backend is.
ghost use Rattle.std.specs.Prelude.{◌≡◌, ◌≤◌, ◌+◌, [], take, drop, length, option_map, unwrap_or};
ghost use Rattle.vcl_attributes.specs.Address.{is_colon as colon, colon_place as place_of_colon, says_port as port_said, host_in as host_said, port_in as port_read, host_of, port_of, said_host, said_port};

use crate::readers::first_string;
use units::Text;
use vcl_tree::Attribute;

/// The port of a backend that names none.
const PORT: &[u8] = b"80";

fn is_colon(byte: u8) -> bool
    ensures { result ≡ colon byte }
{
    byte == b':'
}

// The place of the first colon, or the end.
fn colon_place(text: &[u8]) -> usize
    ensures place { result ≡ place_of_colon text.now }
    ensures within { result ≤ length text.now }
{
    let mut place = 0;
    while place < text.len() && !is_colon(text[place]) {
        place += 1;
    }
    place
}

// Whether one colon stands in the text.
fn says_port(host: &[u8]) -> bool
    ensures { result ≡ port_said host.now }
{
    host.iter().filter(|byte| is_colon(**byte)).count() == 1
}

fn before_colon(text: &[u8]) -> &[u8]
    ensures { result.now ≡ take (place_of_colon text.now) text.now }
{
    &text[..colon_place(text)]
}

fn behind_colon(text: &[u8]) -> &[u8]
    ensures { result.now ≡ drop (place_of_colon text.now + 1) text.now }
{
    let place = colon_place(text);
    if place < text.len() {
        &text[place + 1..]
    } else {
        &[]
    }
}

// The host where `.port` and `.host` are these.
fn host_in<'t>(port: Option<&Text>, host: &'t [u8]) -> &'t [u8]
    ensures { result.now ≡ host_said (option_map (λ t. t.now) port.entry) host.now }
{
    match port {
        Some(_) => host,
        None => {
            if says_port(host) {
                before_colon(host)
            } else {
                host
            }
        }
    }
}

// And the port.
fn port_in<'t>(port: Option<&'t Text>, host: &'t [u8]) -> &'t [u8]
    ensures { result.now ≡ port_read (option_map (λ t. t.now) port.entry) host.now }
{
    match port {
        Some(port) => port.bytes(),
        None => {
            if says_port(host) {
                behind_colon(host)
            } else {
                PORT
            }
        }
    }
}

// The bytes of the string; none where there is none.
fn bytes_of(text: Option<&Text>) -> &[u8]
    ensures { result.now ≡ unwrap_or (option_map (λ t. t.now) text.entry) [] }
{
    match text {
        Some(text) => text.bytes(),
        None => &[],
    }
}

fn said_host(attributes: &[Attribute]) -> &[u8]
    ensures { result.now ≡ said_host attributes.now }
{
    bytes_of(first_string(b"host", attributes))
}

fn said_port(attributes: &[Attribute]) -> Option<&Text>
    ensures { option_map (λ text. text.now) result ≡ said_port attributes.now }
{
    first_string(b"port", attributes)
}

/// The host of a backend with these attributes. A `.host` that says a port is read as both where there is no `.port`.
pub fn host_of(attributes: &[Attribute]) -> &[u8]
    ensures { result.now ≡ host_of attributes.now }
{
    host_in(said_port(attributes), said_host(attributes))
}

/// And the port, which is 80 where none is said.
pub fn port_of(attributes: &[Attribute]) -> &[u8]
    ensures { result.now ≡ port_of attributes.now }
{
    port_in(said_port(attributes), said_host(attributes))
}
