// Where the programs of texts come from.
ghost use Rattle.std.specs.Prelude.{◌≡◌, List, ℕ, IfOk};
ghost use Rattle.http_heads.specs.declared.exchange.Backend.{Backend as Server};
ghost use Rattle.vcl_runs.specs.Evaluators.{evaluator, IsLike};
ghost use Rattle.wire.specs.declared.dial_limits.DialLimits.{DialLimits as Times};

use crate::Runner;
use http_heads::Backend;
use std::alloc::{AllocError, Global};
use units::{Shared, Text};
use wire::DialLimits;

/// The programs of the texts that the VCLs of a cache have, as `M` runs them.
pub trait Programs<M: Runner> {
    /// The text has this program.
    ghost of_text: { List ℕ → M.Program → Type 0 };

    /// Where the backend is that a program gives this name.
    ghost backends: { M.Program → List ℕ → Server };

    /// What the dials of the backend may take that a program gives this name.
    ghost times: { M.Program → List ℕ → Times };

    /// The program of the VCL of this number, which has this text. A text that a cache keeps has one, so that memory alone can be
    /// wanting.
    fn program(
        &mut self,
        alloc: Global,
        vcl: u32,
        text: &Text,
    ) -> Result<Shared<M::Program>, AllocError>
        ensures { IfOk result (λ program. of_text text.now program) };

    /// The backend of this name.
    fn backend(alloc: Global, program: &M::Program, name: &Text) -> Result<Backend, AllocError>
        ensures { IfOk result (λ backend. backend ≡ backends program.now name.now) };

    /// What the dials of the backend of this name may take.
    fn waiting(program: &M::Program, name: &Text) -> DialLimits
        ensures { result ≡ times program.now name.now };

    /// All programs of one text mean the same.
    ghost one_meaning: { (text : List ℕ) (one other : M.Program) → of_text text one → of_text text other
        → IsLike (evaluator M.turns M.targets M.default_of one) (evaluator M.turns M.targets M.default_of other) };
}
