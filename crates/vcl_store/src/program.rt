// The program of a text.
ghost use Rattle.std.specs.Prelude.{◌≡◌, IfOk, IfErr};
ghost use Rattle.vcl_check.specs.Texts.{IsSound};
ghost use Rattle.vcl_store.specs.Joined.{IsJoined};
ghost use Rattle.vcl_store.specs.Refusals.{IsRefusalOf};

use crate::joined::joined_tree;
use std::alloc::Global;
use units::Text;
use vcl_check::{Program, check};
use vcl_program::Compiled;
use vcl_tree::VclError;
use vmod_host::VmodTable;

/// The program of a text with the stored functions of a table: that of its joined tree, in numbers. A text without a tree is
/// refused as `parse` says, else its joined tree as `check` says; places are those of the text.
pub fn program_of(alloc: Global, text: &Text, vmods: &VmodTable) -> Result<Compiled, VclError>
    ensures joined { IfOk result (λ compiled. IsJoined text.now compiled.program.tree) }
    ensures stored { IfOk result (λ compiled. compiled.program.stored ≡ vmods.now.stored) }
    ensures refused { IfErr result (IsRefusalOf text.now vmods.now.stored) }
{
    let program = checked(alloc, text, vmods)?;
    Ok(Compiled::of(alloc, program)?)
}

/// The joined tree of a text, checked with the stored functions of a table and not yet in numbers. It is refused as by
/// `program_of`.
pub fn checked(alloc: Global, text: &Text, vmods: &VmodTable) -> Result<Program, VclError>
    ensures joined { IfOk result (λ program. IsJoined text.now program.tree) }
    ensures stored { IfOk result (λ program. program.stored ≡ vmods.now.stored) }
    ensures sound { IfOk result (λ program. IsSound program.tree.items program.stored) }
    ensures refused { IfErr result (IsRefusalOf text.now vmods.now.stored) }
{
    let joined = joined_tree(alloc, text)?;
    check(alloc, joined, vmods)
}
