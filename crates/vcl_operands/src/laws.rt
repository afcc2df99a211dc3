// The numbered form of a sound text falls, and what the numbered form of an expression is worth.
ghost use Rattle.std.specs.Prelude.{◌≡◌, List};
ghost use Rattle.vcl_tree.specs.Phrase.{Phrase};
ghost use Rattle.vmod_host.specs.declared.signature.Stored.{Stored};
ghost use Rattle.vcl_context.specs.declared.context.Context.{Context};
ghost use Rattle.vcl_code.specs.declared.arena.Arena.{Arena};
ghost use Rattle.vcl_symbols.specs.Known.{Known};
ghost use Rattle.vcl_code.specs.Expressions.{numbered};
ghost use Rattle.vcl_context.specs.declared.turn.Answer.{Answer};
ghost use Rattle.vcl_operands.specs.Falls.{Falls, ChoicesFall};
ghost use Rattle.vcl_operands.specs.Later.{Later};
ghost use Rattle.vcl_operands.specs.Meaning.{scene, value_of};
ghost use Rattle.vcl_operands.specs.Nodes.{world, value_at};

use vcl_program::{Code, Compiled, branches_fall, code_falls};

/// In a sound text in numbers the parts of a node have smaller numbers than its own, and so has the branch that is taken where
/// a branch's condition doesn't hold.
pub fn compiled_falls(program: &Compiled)
    ensures nodes { Falls program.now.code.arena.nodes }
    ensures branches { ChoicesFall program.now.code.arena.branches }
{
    let items = program.program.tree.items.as_slice();
    let stored = program.program.stored.as_slice();
    code_falls(items, stored);
    branches_fall(items, stored);
}

/// What the number of an expression is worth in a text in numbers is what the expression is worth, with the names that it
/// was numbered with.
pub fn numbers_mean(code: &Code)
    requires { Falls code.now.arena.nodes }
    ensures { (known : Known) (e : Phrase) (before : Arena) → Later (numbered known e before).arena code.now.arena
        → (stored : List Stored) (context : Context) (s : List Answer)
        → value_at (world code.now stored context) (numbered known e before).number s ≡ value_of known (scene code.now stored context) e s }
{}
