// The evaluator's machine as a run.
ghost use Rattle.std.specs.Prelude.{◌≡◌, IfOk, OnOk};
ghost use Rattle.vcl_program.specs.Codes.{code_of};
ghost use Rattle.vcl_eval.specs.Turns.{Suits};
ghost use Rattle.vcl_eval.specs.Weights.{left_in};
ghost use Rattle.vcl_meaning.specs.Meaning.{run_of};
ghost use Rattle.vcl_runner.specs.Standing.{left_after, IsTurnOf, one_turn as one_turn_of, StandsAt};
ghost use Rattle.vcl_runner.specs.Targets.{target_named as name_target, default_target as target_else};

use crate::executable::Executable;
use crate::targets::{default_target, target_named};
use directors::Target;
use std::alloc::{AllocError, Global};
use vcl_context::{Answer, Context, Turn};
use vcl_eval::Machine;
use vcl_language::Subroutine;
use vcl_meaning::numbers_run;
use vcl_runs::Runner;
use vcl_values::Backend;

/// A run of a subroutine by the evaluator.
#[derive(Drop)]
pub struct Run {
    machine: Machine,
}

impl Runner for Run {
    type Program = Executable;

    ghost turns = { λ program ran turn. IsTurnOf program.compiled.program.tree.items program.compiled.program.stored ran turn };

    ghost targets = { λ program backend. name_target (code_of program.compiled.program.tree.items program.compiled.program.stored) backend.name };

    ghost default_of = { λ program. target_else (code_of program.compiled.program.tree.items program.compiled.program.stored) };

    ghost stands = { λ run program ran. StandsAt program.compiled.code program.functions.stored (left_after program.compiled.program.tree.items program.compiled.program.stored ran) run.machine };

    ghost fits = { λ run answer. Suits answer run.machine };

    ghost left = { λ run program. left_in program.compiled.code run.machine };

    ghost one_turn = { λ program ran one other p q. one_turn_of (run_of program.compiled.program.tree.items program.compiled.program.stored ran.subroutine ran.context ran.answers) one other p q };

    fn start(
        alloc: Global,
        program: &Executable,
        subroutine: Subroutine,
        context: Context,
    ) -> Result<Run, AllocError> {
        numbers_run(&program.compiled);
        let machine = Machine::start(alloc, &program.compiled, subroutine, context)?;
        Ok(Run { machine })
    }

    fn resume(
        &mut self,
        alloc: Global,
        program: &Executable,
        answer: Answer,
    ) -> Result<Turn, AllocError> {
        self.machine
            .resume(alloc, &program.compiled, &program.functions, answer)
    }

    fn target(
        alloc: Global,
        program: &Executable,
        backend: &Backend,
    ) -> Result<Option<Target>, AllocError> {
        target_named(alloc, &program.compiled.code, backend.name.bytes())
    }

    fn default_target(alloc: Global, program: &Executable) -> Result<Target, AllocError> {
        default_target(alloc, &program.compiled.code)
    }
}
