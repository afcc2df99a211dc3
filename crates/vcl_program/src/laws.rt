// What holds of each text in numbers.
ghost use Rattle.vcl_program.specs.Codes.{code_of};
ghost use Rattle.vcl_program.specs.Falling.{IsFalling, BranchesFall};

use vcl_tree::Item;
use vmod_host::Stored;

/// In the numbered form of a text the nodes that a node is made of have smaller numbers than its own.
pub fn code_falls(items: &[Item], stored: &[Stored])
    ensures { IsFalling (code_of items.now stored.now).arena.nodes }
{}

/// In the numbered form of a text the branch that is taken where a branch's condition doesn't hold has a smaller number.
pub fn branches_fall(items: &[Item], stored: &[Stored])
    ensures { BranchesFall (code_of items.now stored.now).arena.branches }
{}
