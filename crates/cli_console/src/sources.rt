// The text of a VCL, checked.
ghost use Rattle.std.specs.Prelude.{◌≡◌, IfOk, IfErr, filter_map, List};
ghost use Rattle.cli_console.specs.Refusals.{TellsWhy};
ghost use Rattle.cli_console.specs.Sources.{IsSource, IsTextRefused, backend_of, backends_of};

use crate::message::Message;
use crate::refusal::{CliAnswer, refusal};
use cache_law::VclSource;
use std::alloc::{AllocError, Global};
use units::{Sequence, Text};
use vcl_store::checked;
use vcl_tree::{Item, VclError};
use vmod_host::VmodTable;

/// The VCL of this text under a name, or why the text is refused.
pub fn source_of(
    alloc: Global,
    name: Text,
    text: Text,
    vmods: &VmodTable,
) -> Result<VclSource, CliAnswer>
    ensures source { IfOk result (λ source. IsSource vmods.now.stored name text source) }
    ensures refused { IfErr result (λ answer. TellsWhy (IsTextRefused vmods.now.stored text) answer) }
{
    match checked(alloc, &text, vmods) {
        Ok(program) => Ok(VclSource {
            name,
            text,
            backends: backends_of(alloc, program.tree.items.as_slice())?,
        }),
        Err(VclError::Refused { kind, place }) => {
            Err(refusal(alloc, Message::VclRefused(kind, place)))
        }
        Err(VclError::NoMemory) => Err(CliAnswer::NoMemory),
    }
}

// The names of the backends that items declare.
fn backends_of(alloc: Global, items: &[Item]) -> Result<Sequence<Text>, AllocError>
    ensures { IfOk result (λ names. names ≡ backends_of items.now) }
{
    let mut names = Sequence::new(alloc);
    for item in items {
        if let Some(name) = backend_of(item) {
            names.push(name.copy()?)?;
        }
    }
    Ok(names)
}

// The name of the backend that the item declares.
fn backend_of(item: &Item) -> Option<&Text>
    ensures { option_map (λ name. name.now) result ≡ backend_of item.now }
{
    match item {
        Item::Backend(_, name, _) => Some(&name.text),
        Item::NoBackend(_, name) => Some(&name.text),
        _ => None,
    }
}

ghost use Rattle.std.specs.Prelude.{option_map};
