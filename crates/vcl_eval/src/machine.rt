// A run of a subroutine that stops and goes on.
ghost use Rattle.std.specs.Prelude.{◌≡◌, ◌≤◌, ℕ, List, IfOk, OnOk, OnErr, IsSome, None, option_map};
ghost use Rattle.vmod_host.specs.declared.signature.Stored.{Stored};
ghost use Rattle.vcl_context.specs.declared.turn.Answer.{Answer as AnswerHere};
ghost use Rattle.vcl_operands.specs.Outs.{Out, IsSure};
ghost use Rattle.vcl_eval.specs.States.{State};
ghost use Rattle.vcl_program.specs.declared.code.Code.{Code};
ghost use Rattle.vcl_eval.specs.RunStates.{rest_of, stopped};
ghost use Rattle.vcl_eval.specs.Runs.{run_at};
ghost use Rattle.vcl_eval.specs.Weights.{weight, left_in, left_asked, StopsWithin, Lessens};
ghost use Rattle.vcl_eval.specs.Turns.{Left, WaitsFor, IsAt, SureFor, IsSureAt, SuitsAsked, Suits, behind_answer, IsTurn, IsTurnBehind, SuitsBehind, waits_for};

use crate::finish::Finish;
use crate::run_state::RunState;
use crate::task::Stop;
use std::alloc::{AllocError, Global};
use std::mem;
use vcl_context::{Answer, Command, Context, Turn};
use vcl_language::Subroutine;
use vcl_operands::{Evaluation, Stack};
use vcl_program::{Compiled, number_of};
use vmod_host::VmodTable;

/// What a run waits for.
#[derive(Drop)]
pub enum Asked {
    Begin,
    /// That a ban was issued.
    Ban,
    /// A purge's count, for an expression with what is done with its value.
    Purge(Finish),
}

/// A run that waits.
#[derive(Drop)]
pub struct Waiting {
    pub live: RunState,
    pub asked: Asked,
}

/// A run of a subroutine. It has ended, or wanted memory, where nothing waits.
#[derive(Drop)]
pub struct Machine {
    pub waiting: Option<Waiting>,
}

impl Machine {
    /// A run of a built-in subroutine from its beginning, which `Answer::Begin` starts.
    pub fn start(
        alloc: Global,
        program: &Compiled,
        subroutine: Subroutine,
        context: Context,
    ) -> Result<Machine, AllocError>
        ensures at { (stored : List Stored) → IfOk result (IsAt program.now.code stored (run_at program.now.code stored subroutine context)) }
        ensures suits { IfOk result (Suits Answer.Begin) }
        ensures sure { (stored : List Stored) → ((answers : List AnswerHere) → IsSure (run_at program.now.code stored subroutine context answers)) → IfOk result (IsSureAt program.now.code stored) }
    {
        let mut ahead = Stack::new(alloc);
        ahead.push(program.code.built_in[number_of(subroutine)])?;
        let statements = context.statements;
        Ok(Machine {
            waiting: Some(Waiting {
                live: RunState {
                    ahead,
                    evaluation: Evaluation::new(alloc),
                    context,
                    statements,
                },
                asked: Asked::Begin,
            }),
        })
    }

    /// Goes on with an answer until a command is wanted or the subroutine ends, on a run that isn't stuck. After want of memory
    /// it answers that for ever.
    pub fn resume(
        &mut self,
        alloc: Global,
        program: &Compiled,
        functions: &VmodTable,
        answer: Answer,
    ) -> Result<Turn, AllocError>
        requires suits { Suits answer self.old }
        requires sure { IsSureAt program.now.code functions.now.stored self.old }
        ensures turn { (left : List AnswerHere → Out State (Unit {0})) → IsAt program.now.code functions.now.stored left self.old
            → IfOk result (λ turn. IsTurn program.now.code functions.now.stored (behind_answer answer left) turn self.new) }
        ensures suits { IfOk result (λ turn. SuitsBehind turn self.new) }
        ensures sure { IfOk result (λ turn. IsSureAt program.now.code functions.now.stored self.new) }
        ensures wanting { OnErr result (self.new.waiting ≡ None) }
        ensures alive { OnOk result (IsSome self.old.waiting) }
        ensures less { IfOk result (λ turn. Lessens program.now.code (left_in program.now.code self.old) turn self.new) }
    {
        let Some(waiting) = &mut self.waiting else {
            return Err(AllocError);
        };
        match waiting.answered(alloc, program, functions, answer) {
            Ok(stop) => Ok(self.stopped(stop)),
            Err(wanting) => {
                self.give_up();
                Err(wanting)
            }
        }
    }

    // Nothing goes on after want of memory.
    fn give_up(&mut self)
        ensures { self.new.waiting ≡ None }
    {
        drop(self.waiting.take());
    }

    // The turn of what a run has come to.
    fn stopped(&mut self, stop: Stop) -> Turn
        requires { IsSome self.old.waiting }
        ensures turn { (code : Code) (stored : List Stored) → IsTurnBehind code stored (stopped stop) self.old.waiting result self.new }
        ensures suits { SuitsBehind result self.new }
        ensures less { (code : Code) (most : ℕ) → StopsWithin code most stop self.old.waiting → Lessens code most result self.new }
    {
        match stop {
            Stop::Ban(text) => {
                self.ask(Asked::Ban);
                Turn::Need(Command::Ban(text))
            }
            Stop::Purge(keys, soft, what) => {
                self.ask(Asked::Purge(what));
                Turn::Need(Command::Xkey { keys, soft })
            }
            Stop::End(word) => match self.waiting.take() {
                Some(waiting) => Turn::End(word, waiting.live.closed()),
                None => unreachable!(),
            },
        }
    }

    // Waits for something else.
    fn ask(&mut self, asked: Asked)
        ensures { self.new.waiting ≡ option_map (waits_for asked) self.old.waiting }
    {
        if let Some(waiting) = &mut self.waiting {
            waiting.asked = asked;
        }
    }
}

impl Waiting {
    // Goes on with an answer until a command is wanted or the run ends.
    fn answered(
        &mut self,
        alloc: Global,
        program: &Compiled,
        functions: &VmodTable,
        answer: Answer,
    ) -> Result<Stop, AllocError>
        requires suits { SuitsAsked answer self.old.asked }
        requires sure { SureFor program.now.code functions.now.stored self.old.live self.old.asked }
        ensures value { (left : Left) → WaitsFor program.now.code functions.now.stored left self.old.live self.old.asked → IfOk result (λ stop. (answers : List AnswerHere)
            → behind_answer answer left answers ≡ rest_of program.now.code functions.now.stored (stopped stop) self.new.live answers) }
        ensures less { IfOk result (λ stop. weight program.now.code (stopped stop) self.new.live ≤ left_asked program.now.code self.old.live self.old.asked) }
    {
        let asked = mem::replace(&mut self.asked, Asked::Begin);
        self.live.answered(alloc, program, functions, asked, answer)
    }
}
