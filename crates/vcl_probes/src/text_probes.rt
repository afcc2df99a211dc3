// The probes of a text.
ghost use Rattle.std.specs.Prelude.{◌≡◌, IfOk, filter_map, option_map};
ghost use Rattle.vcl_attributes.specs.Probes.{probe_with};
ghost use Rattle.vcl_probes.specs.TextProbes.{probe_in, probes_of};

use crate::bodies::{first_body, probe_names};
use std::alloc::{AllocError, Global};
use units::Text;
use vcl_attributes::{Probe, probe_with};
use vcl_symbols::NameIndex;
use vcl_tree::{Attribute, Item};

// The probe of a backend of this name and these attributes, by the probe's own, if it has any.
fn probe_by(
    alloc: Global,
    name: &Text,
    attributes: &[Attribute],
    body: Option<&[Attribute]>,
) -> Result<Option<Probe>, AllocError>
    ensures { IfOk result (λ found. found ≡ option_map (probe_with name.now attributes.now) (option_map (λ b. b.now) body.entry)) }
{
    match body {
        Some(body) => Ok(Some(probe_with(alloc, name, attributes, body)?)),
        None => Ok(None),
    }
}

fn probe_in(
    alloc: Global,
    names: &NameIndex<'_>,
    items: &[Item],
    item: &Item,
) -> Result<Option<Probe>, AllocError>
    ensures { IfOk result (λ found. found ≡ probe_in names.now items.now item.now) }
{
    match item {
        Item::Backend(_, name, attributes) => {
            let attributes = attributes.as_slice();
            let body = first_body(names, items, attributes);
            probe_by(alloc, &name.text, attributes, body)
        }
        _ => Ok(None),
    }
}

fn probes_among(
    alloc: Global,
    names: &NameIndex<'_>,
    items: &[Item],
) -> Result<Vec<Probe>, AllocError>
    ensures { IfOk result (λ probes. probes.items ≡ filter_map (probe_in names.now items.now) items.now) }
{
    let mut probes = Vec::new(alloc);
    for item in items {
        if let Some(probe) = probe_in(alloc, names, items, item)? {
            probes.push(probe)?;
        }
    }
    Ok(probes)
}

/// The probes of a text's backends, in their order.
pub fn probes_of(alloc: Global, items: &[Item]) -> Result<Vec<Probe>, AllocError>
    ensures { IfOk result (λ probes. probes.items ≡ probes_of items.now) }
{
    let names = NameIndex::of(alloc, probe_names(alloc, items)?)?;
    probes_among(alloc, &names, items)
}
