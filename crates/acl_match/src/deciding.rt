// Which entry decides for an address.
ghost use Rattle.std.specs.Prelude.{◌≡◌, ◌≤◌, ◌∷◌, ◌++◌, [], List, ◌↔◌, IsTrue};
ghost use Rattle.std.specs.Option.{option_copied};
ghost use Rattle.acl_match.specs.declared.entry.AclEntry.{AclEntry};
ghost use Rattle.acl_match.specs.Acl.{Holds, AllShort, IsDecided};

use crate::entry::AclEntry;
use crate::network::network_of;

/// The entry with the longest mask among those that hold the address.
pub fn decider(entries: &[AclEntry], address: [u8; 4]) -> Option<&AclEntry>
    requires { AllShort entries.now }
    ensures { IsDecided entries.now address (option_copied result) }
{
    let mut decided: Option<&AclEntry> = None;
    for entry in entries {
        decided = with_entry(decided, entry, address);
    }
    decided
}

// What decides when one more entry comes after those that `decided` was found among.
fn with_entry<'e>(
    decided: Option<&'e AclEntry>,
    entry: &'e AclEntry,
    address: [u8; 4],
) -> Option<&'e AclEntry>
    requires { entry.now.mask ≤ 32 }
    ensures { (before : List AclEntry) → IsDecided before address (option_copied decided.entry)
        → IsDecided (before ++ entry.entry.now ∷ []) address (option_copied result) }
{
    match decided {
        Some(longest) if entry.mask <= longest.mask => Some(longest),
        _ => {
            if holds(entry, address) {
                Some(entry)
            } else {
                decided
            }
        }
    }
}

// Whether the entry's network has the address in it.
fn holds(entry: &AclEntry, address: [u8; 4]) -> bool
    requires { entry.now.mask ≤ 32 }
    ensures { IsTrue result ↔ Holds entry.now address }
{
    let of_address = network_of(address, entry.mask);
    let of_entry = network_of(entry.address, entry.mask);
    of_address.number == of_entry.number
}
