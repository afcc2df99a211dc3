// A run under way.
ghost use Rattle.std.specs.Prelude.{◌≡◌};
ghost use Rattle.vcl_eval.specs.RunStates.{last_values};

use vcl_context::Context;
use vcl_operands::{Evaluation, Stack};

/// A run under way: the blocks that are still to run, the expression that is evaluated, the values of the variables, and how
/// many statements were run.
#[derive(Drop)]
pub struct RunState {
    pub ahead: Stack<usize>,
    pub evaluation: Evaluation,
    pub context: Context,
    pub statements: u32,
}

impl RunState {
    /// The values of the variables at the end, with the count of statements.
    pub(crate) fn closed(self) -> Context
        ensures { result ≡ last_values self }
    {
        let mut context = self.context;
        context.statements = self.statements;
        context
    }
}
