// Runs from one command to the next.
ghost use Rattle.std.specs.Prelude.{◌≡◌, ◌<◌, ◌≤◌, List, IfOk};
ghost use Rattle.vcl_context.specs.declared.turn.Answer.{Answer as AnswerHere};
ghost use Rattle.vcl_operands.specs.Outs.{IsSure};
ghost use Rattle.vcl_eval.specs.RunStates.{rest_of, task_after, stopped, counted_on};
ghost use Rattle.vcl_eval.specs.Turns.{Left, WaitsFor, SureFor, SuitsAsked, behind_answer};
ghost use Rattle.vcl_eval.specs.Weights.{weight, left_asked};

use crate::finish::Finish;
use crate::machine::Asked;
use crate::run_state::RunState;
use crate::task::{Stop, Task};
use std::alloc::{AllocError, Global};
use vcl_context::{Answer, Return};
use vcl_operands::{Evaluation, Outcome, compiled_falls};
use vcl_program::Compiled;
use vmod_host::VmodTable;

impl RunState {
    /// Goes on with the answer that is waited for.
    pub(crate) fn answered(
        &mut self,
        alloc: Global,
        program: &Compiled,
        functions: &VmodTable,
        asked: Asked,
        answer: Answer,
    ) -> Result<Stop, AllocError>
        requires suits { SuitsAsked answer asked }
        requires sure { SureFor program.now.code functions.now.stored self.old asked }
        ensures value { (left : Left) → WaitsFor program.now.code functions.now.stored left self.old asked → IfOk result (λ stop. (answers : List AnswerHere)
            → behind_answer answer left answers ≡ rest_of program.now.code functions.now.stored (stopped stop) self.new answers) }
        ensures less { IfOk result (λ stop. weight program.now.code (stopped stop) self.new ≤ left_asked program.now.code self.old asked) }
    {
        match asked {
            Asked::Begin => self.run(alloc, program, functions, Task::Run),
            Asked::Ban => self.run(alloc, program, functions, Task::Run),
            Asked::Purge(what) => match answer {
                Answer::Number(count) => self.counted(alloc, program, functions, what, count),
                _ => unreachable!(),
            },
        }
    }

    // Goes on until a command is wanted or the run ends.
    fn run(
        &mut self,
        alloc: Global,
        program: &Compiled,
        functions: &VmodTable,
        first: Task,
    ) -> Result<Stop, AllocError>
        requires { (answers : List AnswerHere) → IsSure (rest_of program.now.code functions.now.stored first self.old answers) }
        ensures value { IfOk result (λ stop. (answers : List AnswerHere) → rest_of program.now.code functions.now.stored first self.old answers
            ≡ rest_of program.now.code functions.now.stored (stopped stop) self.new answers) }
        ensures less { IfOk result (λ stop. weight program.now.code (stopped stop) self.new ≤ weight program.now.code first self.old) }
    {
        compiled_falls(program);
        let mut task = first;
        'steps: loop {
            task = match task {
                Task::Run => self.next_block(alloc, program)?,
                Task::Finish(what, value) => self.finished(alloc, program, what, value)?,
                Task::Evaluate(number, what) => {
                    self.evaluated(alloc, program, functions, number, what)?
                }
                Task::Ban(text) => return Ok(Stop::Ban(text)),
                Task::Purge(keys, soft, what) => return Ok(Stop::Purge(keys, soft, what)),
                Task::End(word) => return Ok(Stop::End(word)),
            };
        }
    }

    // Goes on with a purge's count.
    fn counted(
        &mut self,
        alloc: Global,
        program: &Compiled,
        functions: &VmodTable,
        what: Finish,
        count: i64,
    ) -> Result<Stop, AllocError>
        requires { (answers : List AnswerHere) → IsSure (counted_on program.now.code functions.now.stored self.old what count answers) }
        ensures value { IfOk result (λ stop. (answers : List AnswerHere) → counted_on program.now.code functions.now.stored self.old what count answers
            ≡ rest_of program.now.code functions.now.stored (stopped stop) self.new answers) }
        ensures less { IfOk result (λ stop. weight program.now.code (stopped stop) self.new ≤ left_asked program.now.code self.old (Asked.Purge what)) }
    {
        let outcome = self
            .evaluation
            .answer(alloc, program, functions, &self.context, count)?;
        self.run(alloc, program, functions, task_after(what, outcome))
    }

    // An expression from its beginning.
    fn evaluated(
        &mut self,
        alloc: Global,
        program: &Compiled,
        functions: &VmodTable,
        number: usize,
        what: Finish,
    ) -> Result<Task, AllocError>
        requires { (answers : List AnswerHere) → IsSure (rest_of program.now.code functions.now.stored (Task.Evaluate number what) self.old answers) }
        ensures value { IfOk result (λ task. (answers : List AnswerHere) → rest_of program.now.code functions.now.stored (Task.Evaluate number what) self.old answers
            ≡ rest_of program.now.code functions.now.stored task self.new answers) }
        ensures smaller { IfOk result (λ task. weight program.now.code task self.new < weight program.now.code (Task.Evaluate number what) self.old) }
    {
        self.evaluation = Evaluation::new(alloc);
        let outcome = self
            .evaluation
            .evaluate(alloc, program, functions, &self.context, number)?;
        Ok(task_after(what, outcome))
    }
}

// What is done behind an evaluation.
fn task_after(what: Finish, outcome: Outcome) -> Task
    ensures { result ≡ task_after what outcome }
{
    match outcome {
        Outcome::Value(value) => Task::Finish(what, value),
        Outcome::Purge(keys, soft) => Task::Purge(keys, soft, what),
        Outcome::Fail => Task::End(Return::Fail),
    }
}
