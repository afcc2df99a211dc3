// Lists of what is read. The types of their items aren't known here, so that an item that is let go is no more than that.
ghost use Rattle.std.specs.Prelude.{◌≡◌, ◌∷◌, ◌++◌, [], IfOk, IfErr, OnOk};
ghost use Rattle.vcl_parse.specs.declared.stop.Stop.TheVariants.{NoMemory};

use crate::stop::Stop;
use std::alloc::Global;

/// The only item of a list.
pub fn only<T: Drop>(alloc: Global, item: T) -> Result<Vec<T>, Stop>
    ensures ok { IfOk result (λ items. items.items ≡ item ∷ []) }
    ensures err { IfErr result (λ why. why ≡ NoMemory) }
{
    let mut items = Vec::new(alloc);
    items.push(item)?;
    Ok(items)
}

/// One item more.
pub fn add<T: Drop>(items: &mut Vec<T>, item: T) -> Result<(), Stop>
    ensures ok { OnOk result (items.new.items ≡ items.old.items ++ item ∷ []) }
    ensures err { IfErr result (λ why. why ≡ NoMemory) }
{
    items.push(item)?;
    Ok(())
}
