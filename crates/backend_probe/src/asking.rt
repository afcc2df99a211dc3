// The request of a probe.
ghost use Rattle.std.specs.Prelude.{IfOk};
ghost use Rattle.backend_probe.specs.Probes.{IsGetOf, IsHostAlone};

use http_heads::{BackendRequest, FieldError, Fields, RequestHead};
use std::alloc::{AllocError, Global};
use units::Text;
use vcl_attributes::Probe;

// The field Host with this host, where a field may have it as its value.
fn host_alone(alloc: Global, host: &Text) -> Result<Fields, AllocError>
    ensures { IfOk result (IsHostAlone host.now) }
{
    let name = Text::of(alloc, b"Host")?;
    let mut fields = Fields::new(alloc);
    match fields.set(&name, host) {
        Ok(()) => Ok(fields),
        Err(FieldError::Bad) => Ok(fields),
        Err(FieldError::Full) => unreachable!(),
        Err(FieldError::NoMemory) => Err(AllocError),
    }
}

/// The request of a probe: GET of its URL in HTTP/1.1, whose one field is Host with the probe's host (RFC 9110, section 7.2). It has
/// no field where none may have that host as its value.
pub fn get_of(alloc: Global, probe: &Probe) -> Result<BackendRequest, AllocError>
    ensures { IfOk result (IsGetOf probe.now) }
{
    let fields = host_alone(alloc, &probe.host)?;
    let head = RequestHead {
        method: Text::of(alloc, b"GET")?,
        url: probe.url.copy()?,
        version: 11,
        fields,
    };
    Ok(BackendRequest {
        head,
        body: Text::of(alloc, b"")?,
    })
}
