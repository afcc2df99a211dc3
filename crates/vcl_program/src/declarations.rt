// What a text declares for its runs.
ghost use Rattle.std.specs.Prelude.{◌≡◌, IfOk};
ghost use Rattle.vcl_program.specs.Declarations.{backend, backend_of, backends_of, networks_of, acls_of, director, director_of, directors_of};

use crate::code::Director;
use acl_match::AclEntries;
use std::alloc::{AllocError, Global};
use units::{Sequence, Text};
use vcl_check::{Mention, MentionKind, networks};
use vcl_language::maker_named;
use vcl_tree::Item;
use vcl_values::Backend;

/// The backends, in the text's order.
pub fn backends_of(alloc: Global, items: &[Item]) -> Result<Sequence<Backend>, AllocError>
    ensures { IfOk result (λ out. out ≡ backends_of items.now) }
{
    let mut out = Sequence::new(alloc);
    for item in items {
        if let Some(backend) = backend_of(item)? {
            out.push(backend)?;
        }
    }
    Ok(out)
}

fn backend_of(item: &Item) -> Result<Option<Backend>, AllocError>
    ensures { IfOk result (λ found. found ≡ backend_of item.now) }
{
    match item {
        Item::Backend(_, name, _) => backend(false, &name.text),
        Item::NoBackend(_, name) => backend(true, &name.text),
        _ => Ok(None),
    }
}

fn backend(declared_none: bool, name: &Text) -> Result<Option<Backend>, AllocError>
    ensures { IfOk result (λ found. found ≡ Some (backend declared_none name.now)) }
{
    Ok(Some(Backend {
        name: name.copy()?,
        key: None,
        declared_none,
    }))
}

/// The networks of each ACL, in the text's order.
pub fn acls_of(alloc: Global, items: &[Item]) -> Result<Sequence<AclEntries>, AllocError>
    ensures { IfOk result (λ out. out ≡ acls_of items.now) }
{
    let mut out = Sequence::new(alloc);
    for item in items {
        if let Some(list) = networks_of(alloc, item)? {
            out.push(list)?;
        }
    }
    Ok(out)
}

fn networks_of(alloc: Global, item: &Item) -> Result<Option<AclEntries>, AllocError>
    ensures { IfOk result (λ found. found ≡ networks_of item.now) }
{
    match item {
        Item::Acl(_, _, entries) => Ok(Some(networks(alloc, entries.as_slice())?)),
        _ => Ok(None),
    }
}

/// The directors that are made in vcl_init, in the text's order.
pub fn directors_of(alloc: Global, said: &[Mention<'_>]) -> Result<Sequence<Director>, AllocError>
    ensures { IfOk result (λ out. out ≡ directors_of said.now) }
{
    let mut out = Sequence::new(alloc);
    for mention in said {
        if let Some(director) = director_of(alloc, mention)? {
            out.push(director)?;
        }
    }
    Ok(out)
}

fn director_of(alloc: Global, mention: &Mention<'_>) -> Result<Option<Director>, AllocError>
    ensures { IfOk result (λ found. found ≡ director_of mention.now) }
{
    match mention.kind {
        MentionKind::Object => match maker_named(mention.other) {
            None => Ok(None),
            Some(kind) => Ok(Some(Director {
                name: Text::of(alloc, mention.name)?,
                kind,
            })),
        },
        _ => Ok(None),
    }
}
