// A script, and a run on it.
ghost use Rattle.std.specs.Prelude.{◌≡◌, IfOk, OnOk, None, Some};
ghost use Rattle.std.proofs.Common.{◌∙◌, sym};
ghost use Rattle.vcl_context.specs.declared.context.Context.{Context as Worked};
ghost use Rattle.vcl_scripts.specs.Scripts.{routed, word_of, is_recv as recv, ended, turn_of, IsContext, IsRun, Fits, left_of};

use directors::Target;
use std::alloc::{AllocError, Global};
use units::{Copied, Text};
use vcl_context::{Answer, Command, Context, Return, Turn};
use vcl_language::Subroutine;
use vcl_runs::Runner;
use vcl_values::Backend;

/// How vcl_recv ends.
#[derive(Clone, Copy, Debug, PartialEq, Eq)]
pub enum Route {
    Hash,
    Pass,
    Purge,
    Restart,
}

/// What vcl_recv wants and how it ends. The other subroutines want nothing, and end as the built-in ones do where all is
/// as it should be.
#[derive(Drop)]
pub struct Script {
    /// The text of the ban that vcl_recv wants first.
    pub ban: Text,
    /// The keys that it purges softly next.
    pub keys: Text,
    pub route: Route,
    /// What each backend stands for, and what is used where none was chosen.
    pub target: Target,
}

/// How far a run is.
#[derive(Clone, Copy, Debug, PartialEq, Eq)]
pub enum Stage {
    /// Before its beginning.
    Ready,
    /// It wants the ban.
    Banning,
    /// It wants the purge.
    Purging,
    /// It has ended.
    Over,
}

/// A run of a subroutine of a script.
#[derive(Drop)]
pub struct ScriptRun {
    subroutine: Subroutine,
    context: Option<Context>,
    stage: Stage,
}

fn route_word(route: Route) -> Return
    ensures { result ≡ routed route }
{
    match route {
        Route::Hash => Return::Hash,
        Route::Pass => Return::Pass,
        Route::Purge => Return::Purge,
        Route::Restart => Return::Restart,
    }
}

// How a subroutine ends.
fn last_word(alloc: Global, route: Route, subroutine: Subroutine) -> Result<Return, AllocError>
    ensures { IfOk result (λ word. word ≡ word_of route subroutine) }
{
    Ok(match subroutine {
        Subroutine::Recv => route_word(route),
        Subroutine::Hash => Return::Lookup,
        Subroutine::Purge => Return::Synth(200, Text::of(alloc, b"")?),
        Subroutine::Miss | Subroutine::Pass | Subroutine::BackendFetch => Return::Fetch,
        Subroutine::Init | Subroutine::Fini => Return::Ok,
        Subroutine::Hit
        | Subroutine::Deliver
        | Subroutine::Synth
        | Subroutine::BackendResponse
        | Subroutine::BackendError => Return::Deliver,
    })
}

fn is_recv(subroutine: Subroutine) -> bool
    ensures { result ≡ recv subroutine }
{
    matches!(subroutine, Subroutine::Recv)
}

impl ScriptRun {
    // The run ends, and gives away what it worked on.
    fn end(&mut self, alloc: Global, script: &Script) -> Result<Turn, AllocError>
        ensures turn { IfOk result (λ turn. (context : Worked) → IsContext self.old.context context → turn ≡ ended script.now self.old.subroutine context) }
        ensures over { OnOk result (self.new ≡ record { subroutine = self.old.subroutine; context = None; stage = Stage.Over }) }
    {
        let word = last_word(alloc, script.route, self.subroutine)?;
        let context = self.context.take().ok_or(AllocError)?;
        self.stage = Stage::Over;
        Ok(Turn::End(word, context))
    }
}

impl Runner for ScriptRun {
    type Program = Script;

    ghost turns = { λ script ran turn. turn ≡ turn_of script ran };

    ghost targets = { λ script backend. Some script.target };

    ghost default_of = { λ script. script.target };

    ghost stands = { λ run script ran. IsRun run ran };

    ghost fits = { λ run answer. Fits run.stage answer };

    ghost left = { λ run script. left_of run.stage };

    ghost one_turn = { λ script ran one other p q. q ∙ sym p };

    fn start(
        alloc: Global,
        program: &Script,
        subroutine: Subroutine,
        context: Context,
    ) -> Result<ScriptRun, AllocError> {
        Ok(ScriptRun {
            subroutine,
            context: Some(context),
            stage: Stage::Ready,
        })
    }

    fn resume(
        &mut self,
        alloc: Global,
        program: &Script,
        answer: Answer,
    ) -> Result<Turn, AllocError> {
        match self.stage {
            Stage::Ready if is_recv(self.subroutine) => {
                let ban = program.ban.copy()?;
                self.stage = Stage::Banning;
                Ok(Turn::Need(Command::Ban(ban)))
            }
            Stage::Banning => {
                let keys = program.keys.copy()?;
                self.stage = Stage::Purging;
                Ok(Turn::Need(Command::Xkey { keys, soft: true }))
            }
            _ => self.end(alloc, program),
        }
    }

    fn target(
        alloc: Global,
        program: &Script,
        backend: &Backend,
    ) -> Result<Option<Target>, AllocError> {
        Ok(Some(program.target.copied(alloc)?))
    }

    fn default_target(alloc: Global, program: &Script) -> Result<Target, AllocError> {
        program.target.copied(alloc)
    }
}
