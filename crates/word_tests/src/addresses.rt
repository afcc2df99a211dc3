// Address lists.
use acl_match::{Acl, AclEntries, AclEntry, address_of};
use std::alloc::{AllocError, Global};

/// Whether the list of the entries, as `+10.0.0.0/8` or `-10.1.2.0/24`, takes the address behind the bar. Where no address
/// stands there, whether the list is sound. Its first fault, where it has one.
pub fn list_shown(alloc: Global, row: &str) -> Result<String, AllocError> {
    let (words, address) = row.split_once('|').unwrap_or((row, ""));
    match Acl::of(alloc, entries_of(alloc, words)?) {
        Ok(_) if address.is_empty() => format!(in alloc; "sound"),
        Ok(list) => {
            let is_taken = list.matches(address_in(address));
            format!(in alloc; "{is_taken}")
        }
        Err(fault) => format!(in alloc; "{fault:?}"),
    }
}

fn entries_of(alloc: Global, words: &str) -> Result<AclEntries, AllocError> {
    let mut entries = Vec::new(alloc);
    for word in words.split(' ').filter(|word| !word.is_empty()) {
        entries.push(entry_of(word))?;
    }
    Ok(AclEntries::from_vec(entries))
}

fn entry_of(word: &str) -> AclEntry {
    let (sign, network) = word.split_at_checked(1).unwrap_or(("", ""));
    let (address, mask) = network.split_once('/').unwrap_or((network, ""));
    AclEntry {
        address: address_in(address),
        mask: mask.parse::<u8>().unwrap_or(0),
        negated: sign == "-",
    }
}

fn address_in(text: &str) -> [u8; 4] {
    address_of(text.as_bytes()).unwrap_or([0; 4])
}

/// The address that a text is.
pub fn address_shown(alloc: Global, text: &str) -> Result<String, AllocError> {
    let address = address_of(text.as_bytes());
    format!(in alloc; "{address:?}")
}
