// Handles at the numbers of objects.
ghost use Rattle.std.specs.Prelude.{◌≡◌, ℕ, true, false, nat_eq, OnOk, OnErr};
ghost use Rattle.object_heads.specs.Indexes.{Adds, Removes, IsSame, is_at_number};

use std::alloc::AllocError;
use std::collections::BTreeMap;

/// Puts a handle at a number, where none stands. Where memory is wanting, all stand as before.
pub(crate) fn put(
    numbers: &mut BTreeMap<u64, u64>,
    handle: u64,
    number: u64,
) -> Result<(), AllocError>
    requires { (other : ℕ) → is_at_number numbers.old number other ≡ false }
    ensures ok { OnOk result (Adds (is_at_number numbers.old) handle (nat_eq number) (is_at_number numbers.new)) }
    ensures err { OnErr result (IsSame (is_at_number numbers.old) (is_at_number numbers.new)) }
{
    numbers.insert(number, handle)?;
    Ok(())
}

/// Takes the handle from the number at which it stands. It takes no memory.
pub(crate) fn take(numbers: &mut BTreeMap<u64, u64>, handle: u64, number: u64)
    requires { is_at_number numbers.old number handle ≡ true }
    ensures { Removes (is_at_number numbers.old) handle (nat_eq number) (is_at_number numbers.new) }
{
    numbers.remove(&number);
}
