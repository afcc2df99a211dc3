// Where backends are.
ghost use Rattle.std.specs.Prelude.{◌≡◌, IfOk, option_map};
ghost use Rattle.vcl_library.specs.Backends.{attributes_named, attributes_in, server_at};

use http_heads::Backend;
use std::alloc::{AllocError, Global};
use units::Text;
use vcl_attributes::{host_of, port_of};
use vcl_runner::Executable;
use vcl_tree::{Attribute, Item};

// The attributes of the backend that the item declares, if it has this name.
fn attributes_named<'t>(wanted: &[u8], item: &'t Item) -> Option<&'t [Attribute]>
    ensures { option_map (λ attributes. attributes.now) result ≡ attributes_named wanted.now item.entry.now }
{
    match item {
        Item::Backend(_, name, attributes) => {
            if name.text.bytes() == wanted {
                Some(attributes.as_slice())
            } else {
                None
            }
        }
        _ => None,
    }
}

// The attributes of the first backend of this name; none where there is no such backend.
fn attributes_in<'t>(wanted: &[u8], items: &'t [Item]) -> &'t [Attribute]
    ensures { result.now ≡ attributes_in wanted.now items.entry.now }
{
    for item in items {
        if let Some(attributes) = attributes_named(wanted, item) {
            return attributes;
        }
    }
    &[]
}

/// The backend of this name of the program, with its host and its port. A `.host` that says both is read so where there is no
/// `.port`.
pub fn backend_of(alloc: Global, program: &Executable, name: &Text) -> Result<Backend, AllocError>
    ensures { IfOk result (λ backend. backend ≡ server_at program.now.compiled.program.tree.items name.now) }
{
    let items = program.compiled.program.tree.items.as_slice();
    let attributes = attributes_in(name.bytes(), items);
    Ok(Backend {
        name: name.copy()?,
        host: Text::of(alloc, host_of(attributes))?,
        port: Text::of(alloc, port_of(attributes))?,
    })
}
