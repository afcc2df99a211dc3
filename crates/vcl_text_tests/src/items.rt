// What stands at the top of a program.
use crate::refusals::tree_of;
use std::alloc::{AllocError, Global};
use vcl_tree::{Item, Name};

/// Each item by its word, its name and how many parts it has.
pub fn items_shown(alloc: Global, text: &str) -> Result<String, AllocError> {
    let mut out = String::new(alloc);
    match tree_of(alloc, text) {
        Ok(tree) => push_items(&mut out, tree.items.as_slice())?,
        Err(_) => out.push_str("refused")?,
    }
    Ok(out)
}

fn push_items(out: &mut String, items: &[Item]) -> Result<(), AllocError> {
    for item in items {
        push_item(out, item)?;
    }
    Ok(())
}

// The item's word, its name, and how many parts it has where it can have some.
fn summary(item: &Item) -> (&'static str, &Name, Option<usize>) {
    match item {
        Item::Import(_, name) => ("import", name, None),
        Item::Backend(_, name, attributes) => ("backend", name, Some(attributes.as_slice().len())),
        Item::NoBackend(_, name) => ("backend none", name, None),
        Item::Probe(_, name, attributes) => ("probe", name, Some(attributes.as_slice().len())),
        Item::Acl(_, name, entries) => ("acl", name, Some(entries.as_slice().len())),
        Item::Sub(_, name, block) => ("sub", name, Some(block.statements.as_slice().len())),
    }
}

fn push_item(out: &mut String, item: &Item) -> Result<(), AllocError> {
    let (word, name, count) = summary(item);
    if !out.is_empty() {
        out.push_str(", ")?;
    }
    write!(out, "{word} ")?;
    for byte in name.text.bytes() {
        out.push(char::from(*byte))?;
    }
    match count {
        Some(count) => write!(out, " {count}"),
        None => Ok(()),
    }
}
