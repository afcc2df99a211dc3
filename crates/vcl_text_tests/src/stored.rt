// Functions of a table, as they are found.
use std::alloc::{AllocError, Global};
use vmod_host::VmodTable;

/// The number and the tag of the function of a module and name, or of a tag.
pub fn stored_shown(
    alloc: Global,
    vmods: &VmodTable,
    word: &str,
    row: &str,
) -> Result<String, AllocError> {
    let (module_name, name) = row.split_once('.').unwrap_or(("", row));
    let found = if word == "tag" {
        vmods.find_tag(row.parse::<u32>().unwrap_or(0))
    } else {
        vmods.find(module_name.as_bytes(), name.as_bytes())
    };
    match found {
        Some(number) if number < vmods.stored.as_slice().len() => {
            let tag = vmods.at(number).tag;
            format!(in alloc; "{number} of tag {tag}")
        }
        _ => format!(in alloc; "none"),
    }
}
