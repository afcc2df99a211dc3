// A run of a subroutine that stops where it wants something done.
ghost use Rattle.std.specs.Prelude.{◌≡◌, ℕ, Option, IfOk, OnOk, false};
ghost use Rattle.vcl_language.specs.Scopes.{has};
ghost use Rattle.vcl_language.specs.declared.scope.Scope.TheVariants.{Init};
ghost use Rattle.vcl_context.specs.declared.turn.Answer.{Answer as Told};
ghost use Rattle.vcl_context.specs.declared.turn.Turn.{Turn as Turned};
ghost use Rattle.vcl_values.specs.declared.value.Backend.{Backend as Named};
ghost use Rattle.directors.specs.declared.target.Target.{Target as Sought};
ghost use Rattle.vcl_runs.specs.Runs.{Ran, begun, answered, Awaits, LeavesLess};

use directors::Target;
use std::alloc::{AllocError, Global};
use vcl_context::{Answer, Context, Turn};
use vcl_language::Subroutine;
use vcl_values::Backend;

/// A run of a subroutine.
pub trait Runner: Drop + Sized {
    /// What it runs.
    type Program;

    /// What a run on this program wants after these answers, or how it ends.
    ghost turns: { Self.Program → Ran → Turned → Type 0 };

    /// What the program takes a backend or a director for.
    ghost targets: { Self.Program → Named → Option Sought };

    /// What a request is sent to for which nothing was chosen.
    ghost default_of: { Self.Program → Sought };

    /// On this program it was begun and answered so.
    ghost stands: { Self → Self.Program → Ran → Type 0 };

    /// It may be answered so.
    ghost fits: { Self → Told → Type 0 };

    /// How many bans may be wanted on this program before a purge or the end, at most.
    ghost left: { Self → Self.Program → ℕ };

    /// A run that may be answered `Begin`. No run is one of vcl_init.
    fn start(
        alloc: Global,
        program: &Self::Program,
        subroutine: Subroutine,
        context: Context,
    ) -> Result<Self, AllocError>
        requires { has Init subroutine ≡ false }
        ensures stands { IfOk result (λ run. stands run program.now (begun subroutine context)) }
        ensures fits { IfOk result (λ run. fits run Answer.Begin) };

    /// The next turn.
    fn resume(
        &mut self,
        alloc: Global,
        program: &Self::Program,
        answer: Answer,
    ) -> Result<Turn, AllocError>
        requires stands { (ran : Ran) × stands self.old program.now ran }
        requires fits { fits self.old answer }
        ensures stands { OnOk result ((ran : Ran) → stands self.old program.now ran → stands self.new program.now (answered answer ran)) }
        ensures turns { IfOk result (λ turn. (ran : Ran) → stands self.old program.now ran → turns program.now (answered answer ran) turn) }
        ensures fits { IfOk result (λ turn. Awaits (fits self.new) turn) }
        ensures less { IfOk result (λ turn. LeavesLess (left self.old program.now) (left self.new program.now) turn) };

    /// The target that the program has of this name.
    fn target(
        alloc: Global,
        program: &Self::Program,
        backend: &Backend,
    ) -> Result<Option<Target>, AllocError>
        ensures { IfOk result (λ target. target ≡ targets program.now backend.now) };

    /// What a request is sent to for which nothing was chosen.
    fn default_target(alloc: Global, program: &Self::Program) -> Result<Target, AllocError>
        ensures { IfOk result (λ target. target ≡ default_of program.now) };

    /// After the same answers there is one turn.
    ghost one_turn: { (program : Self.Program) → (ran : Ran) → (one other : Turned) → turns program ran one → turns program ran other → other ≡ one };
}
