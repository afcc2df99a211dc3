// What runs are.
ghost use Rattle.std.specs.Prelude.{◌≡◌, List};
ghost use Rattle.vcl_language.specs.declared.scope.Subroutine.{Subroutine};
ghost use Rattle.vcl_context.specs.declared.context.Context.{Context};
ghost use Rattle.vcl_context.specs.declared.turn.Answer.{Answer};
ghost use Rattle.vcl_eval.specs.Runs.{run_at};
ghost use Rattle.vcl_meaning.specs.Meaning.{run_of};

use vcl_operands::compiled_falls;
use vcl_program::Compiled;

/// A run of a sound text in numbers does what the text with its names says.
pub fn numbers_run(program: &Compiled)
    ensures { (subroutine : Subroutine) (context : Context) (answers : List Answer)
        → run_of program.now.program.tree.items program.now.program.stored subroutine context answers
        ≡ run_at program.now.code program.now.program.stored subroutine context answers }
{
    compiled_falls(program);
}
