// Steps of a run.
ghost use Rattle.std.specs.Prelude.{◌≡◌, ◌∷◌, ◌<◌, ◌↔◌, IfOk, IsSome, IsTrue, Some, nat_lt, slice_get, option_copied, option_map};
ghost use Rattle.vcl_values.specs.Values.{truth_of};
ghost use Rattle.vcl_operands.specs.Values.{as_text};
ghost use Rattle.vcl_eval.specs.RunStates.{ended, told};
ghost use Rattle.vcl_eval.specs.Statements.{set_to, append_to, key_given, body_given};
ghost use Rattle.vcl_eval.specs.States.{most_statements};
ghost use Rattle.vcl_eval.specs.Steps.{step, with_ahead, set_step, banned, ends_plain, ends_with_one, ends_with_two, chosen_step, taken_step, assigned_step, appended_step, finished_step, begun_step, statement_step, block_step, next_step};

use crate::finish::{Finish, Plan, plan_of};
use crate::returns::{plain, with_one, with_two};
use crate::run_state::RunState;
use crate::setting::{append_field, append_to, body_given, field_to, key_given, set_to};
use crate::task::Task;
use std::alloc::{AllocError, Global};
use units::Text;
use vcl_code::{Action, Block, Branch, Choice, ReturnWord};
use vcl_context::{Message, Return, Setting, Variable};
use vcl_operands::short_text;
use vcl_program::Compiled;
use vcl_values::Value;

/// The most statements of a run.
pub const MAX_STATEMENTS: u32 = 100_000;

impl RunState {
    /// The block on top.
    pub(crate) fn next_block(
        &mut self,
        alloc: Global,
        program: &Compiled,
    ) -> Result<Task, AllocError>
        requires { IsSome (next_step program.now.code self.old.ahead self.old) }
        ensures { IfOk result (λ task. next_step program.now.code self.old.ahead self.old ≡ Some (step task self.new)) }
    {
        match self.ahead.pop() {
            None => Ok(Task::End(Return::Fail)),
            Some(number) => self.block(alloc, program, block_at(program, number)),
        }
    }

    fn block(
        &mut self,
        alloc: Global,
        program: &Compiled,
        block: Option<Block>,
    ) -> Result<Task, AllocError>
        requires { IsSome (block_step program.now.code block self.old) }
        ensures { IfOk result (λ task. block_step program.now.code block self.old ≡ Some (step task self.new)) }
    {
        match block {
            None => unreachable!(),
            Some(Block::End) => Ok(Task::Run),
            Some(Block::Then(action, next)) => self.statement(alloc, program, action, next),
        }
    }

    // A statement is counted and begins, before the block behind it.
    fn statement(
        &mut self,
        alloc: Global,
        program: &Compiled,
        action: Action,
        next: usize,
    ) -> Result<Task, AllocError>
        requires { IsSome (statement_step program.now.code action next self.old) }
        ensures { IfOk result (λ task. statement_step program.now.code action next self.old ≡ Some (step task self.new)) }
    {
        if !has_room(self.statements) {
            return Ok(Task::End(Return::Fail));
        }
        self.statements += 1;
        self.ahead.push(next)?;
        match plan_of(action) {
            Some(plan) => self.begun(alloc, program, plan),
            None => unreachable!(),
        }
    }

    // A statement begins.
    fn begun(&mut self, alloc: Global, program: &Compiled, plan: Plan) -> Result<Task, AllocError>
        requires { IsSome (begun_step program.now.code plan self.old) }
        ensures { IfOk result (λ task. begun_step program.now.code plan self.old ≡ Some (step task self.new)) }
    {
        match plan {
            Plan::Evaluate(e, what) => Ok(Task::Evaluate(e, what)),
            Plan::Unset(message, number) => {
                let Some(name) = text_at(program, number) else {
                    unreachable!();
                };
                self.context.unset_field(message, name.bytes());
                Ok(Task::Run)
            }
            Plan::Call(number) => match custom_at(program, number) {
                Some(block) => self.put_ahead(block),
                None => unreachable!(),
            },
            Plan::Choose(choice) => self.chosen(program, choice),
            Plan::Return(word) => ends_plain(alloc, word),
        }
    }

    // A block is the next to run.
    fn put_ahead(&mut self, block: usize) -> Result<Task, AllocError>
        ensures { IfOk result (λ task. (task ≡ Task.Run) × (self.new ≡ with_ahead self.old (block ∷ self.old.ahead))) }
    {
        self.ahead.push(block)?;
        Ok(Task::Run)
    }

    // What is taken where no condition before it held.
    fn chosen(&mut self, program: &Compiled, choice: Choice) -> Result<Task, AllocError>
        requires { IsSome (chosen_step program.now.code choice self.old) }
        ensures { IfOk result (λ task. chosen_step program.now.code choice self.old ≡ Some (step task self.new)) }
    {
        match choice {
            Choice::Nothing => Ok(Task::Run),
            Choice::Block(block) => self.put_ahead(block),
            Choice::Branch(number) => match branch_at(program, number) {
                Some(branch) => Ok(Task::Evaluate(branch.condition, Finish::Choose(number))),
                None => unreachable!(),
            },
        }
    }

    /// What is done with an expression's value.
    pub(crate) fn finished(
        &mut self,
        alloc: Global,
        program: &Compiled,
        what: Finish,
        value: Value,
    ) -> Result<Task, AllocError>
        requires { IsSome (finished_step program.now.code what value self.old) }
        ensures { IfOk result (λ task. finished_step program.now.code what value self.old ≡ Some (step task self.new)) }
    {
        self.finish(alloc, program, &what, &value)
    }

    fn finish(
        &mut self,
        alloc: Global,
        program: &Compiled,
        what: &Finish,
        value: &Value,
    ) -> Result<Task, AllocError>
        requires { IsSome (finished_step program.now.code what.now value.now self.old) }
        ensures { IfOk result (λ task. finished_step program.now.code what.now value.now self.old ≡ Some (step task self.new)) }
    {
        match what {
            Finish::Assign(variable) => self.assigned(alloc, *variable, value),
            Finish::Append(variable) => self.appended(alloc, *variable, value),
            Finish::AssignField(message, number) => {
                self.field_assigned(alloc, program, *message, *number, value)
            }
            Finish::AppendField(message, number) => {
                self.field_appended(alloc, program, *message, *number, value)
            }
            Finish::HashData => self.key_added(alloc, value),
            Finish::Synthetic => self.body_set(alloc, value),
            Finish::Ban => banned(alloc, value),
            Finish::Forget => Ok(Task::Run),
            Finish::Choose(number) => self.taken(program, *number, value),
            Finish::Return(word) => ends_with_one(alloc, *word, value),
            Finish::ReturnFirst(word, second) => second_next(*word, *second, value),
            Finish::ReturnSecond(word, first) => ends_with_two(alloc, *word, first, value),
        }
    }

    fn assigned(
        &mut self,
        alloc: Global,
        variable: Variable,
        value: &Value,
    ) -> Result<Task, AllocError>
        requires { IsSome (option_map (set_step self.old) (set_to variable value.now self.old.context)) }
        ensures { IfOk result (λ task. option_map (set_step self.old) (set_to variable value.now self.old.context) ≡ Some (step task self.new)) }
    {
        Ok(told(set_to(alloc, &mut self.context, variable, value)?))
    }

    fn appended(
        &mut self,
        alloc: Global,
        variable: Variable,
        value: &Value,
    ) -> Result<Task, AllocError>
        requires { IsSome (option_map (set_step self.old) (append_to variable value.now self.old.context)) }
        ensures { IfOk result (λ task. option_map (set_step self.old) (append_to variable value.now self.old.context) ≡ Some (step task self.new)) }
    {
        Ok(told(append_to(alloc, &mut self.context, variable, value)?))
    }

    fn field_assigned(
        &mut self,
        alloc: Global,
        program: &Compiled,
        message: Message,
        number: usize,
        value: &Value,
    ) -> Result<Task, AllocError>
        requires { IsSome (assigned_step program.now.code message number value.now self.old) }
        ensures { IfOk result (λ task. assigned_step program.now.code message number value.now self.old ≡ Some (step task self.new)) }
    {
        let Some(name) = text_at(program, number) else {
            unreachable!();
        };
        Ok(told(field_to(alloc, &mut self.context, message, name, value)?))
    }

    fn field_appended(
        &mut self,
        alloc: Global,
        program: &Compiled,
        message: Message,
        number: usize,
        value: &Value,
    ) -> Result<Task, AllocError>
        requires { IsSome (appended_step program.now.code message number value.now self.old) }
        ensures { IfOk result (λ task. appended_step program.now.code message number value.now self.old ≡ Some (step task self.new)) }
    {
        let Some(name) = text_at(program, number) else {
            unreachable!();
        };
        Ok(told(append_field(alloc, &mut self.context, message, name, value)?))
    }

    fn key_added(&mut self, alloc: Global, value: &Value) -> Result<Task, AllocError>
        ensures { IfOk result (λ task. set_step self.old (key_given value.now self.old.context) ≡ step task self.new) }
    {
        Ok(told(key_given(alloc, &mut self.context, value)?))
    }

    fn body_set(&mut self, alloc: Global, value: &Value) -> Result<Task, AllocError>
        ensures { IfOk result (λ task. set_step self.old (body_given value.now self.old.context) ≡ step task self.new) }
    {
        Ok(told(body_given(alloc, &mut self.context, value)?))
    }

    // A branch by its condition's value.
    fn taken(
        &mut self,
        program: &Compiled,
        number: usize,
        value: &Value,
    ) -> Result<Task, AllocError>
        requires { IsSome (taken_step program.now.code (slice_get program.now.code.arena.branches number) (truth_of value.now) self.old) }
        ensures { IfOk result (λ task. taken_step program.now.code (slice_get program.now.code.arena.branches number) (truth_of value.now) self.old ≡ Some (step task self.new)) }
    {
        let Some(branch) = branch_at(program, number) else {
            unreachable!();
        };
        match value.truth() {
            None => unreachable!(),
            Some(true) => self.put_ahead(branch.block),
            Some(false) => self.chosen(program, branch.otherwise),
        }
    }
}

// Whether one more statement may run.
fn has_room(statements: u32) -> bool
    ensures test { result ≡ nat_lt statements most_statements }
    ensures below { IsTrue result ↔ (statements < 100000) }
{
    statements < MAX_STATEMENTS
}

fn banned(alloc: Global, value: &Value) -> Result<Task, AllocError>
    ensures { IfOk result (λ task. task ≡ banned (as_text value.now)) }
{
    match short_text(alloc, value)? {
        Some(text) => Ok(Task::Ban(text)),
        None => Ok(Task::End(Return::Fail)),
    }
}

// The second value of two, behind the first.
fn second_next(word: ReturnWord, second: usize, first: &Value) -> Result<Task, AllocError>
    ensures { IfOk result (λ task. task ≡ Task.Evaluate second (Finish.ReturnSecond word first.now)) }
{
    let first = first.copy()?;
    Ok(Task::Evaluate(second, Finish::ReturnSecond(word, first)))
}

fn ends_plain(alloc: Global, word: ReturnWord) -> Result<Task, AllocError>
    requires { IsSome (ends_plain word) }
    ensures { IfOk result (λ task. ends_plain word ≡ Some task) }
{
    Ok(ended(plain(alloc, word)?))
}

fn ends_with_one(alloc: Global, word: ReturnWord, value: &Value) -> Result<Task, AllocError>
    requires { IsSome (ends_with_one word value.now) }
    ensures { IfOk result (λ task. ends_with_one word value.now ≡ Some task) }
{
    Ok(ended(with_one(alloc, word, value)?))
}

fn ends_with_two(
    alloc: Global,
    word: ReturnWord,
    status: &Value,
    reason: &Value,
) -> Result<Task, AllocError>
    requires { IsSome (ends_with_two word status.now reason.now) }
    ensures { IfOk result (λ task. ends_with_two word status.now reason.now ≡ Some task) }
{
    Ok(ended(with_two(alloc, word, status, reason)?))
}

fn told(setting: Setting) -> Task
    ensures { result ≡ told setting }
{
    match setting {
        Setting::Done => Task::Run,
        Setting::Refused => Task::End(Return::Fail),
    }
}

fn ended(ending: Option<Return>) -> Task
    ensures { result ≡ ended ending }
{
    match ending {
        Some(word) => Task::End(word),
        None => Task::End(Return::Fail),
    }
}

fn block_at(program: &Compiled, number: usize) -> Option<Block>
    ensures { result ≡ slice_get program.now.code.arena.blocks number }
{
    program.code.arena.blocks.as_slice().get(number).copied()
}

fn branch_at(program: &Compiled, number: usize) -> Option<Branch>
    ensures { result ≡ slice_get program.now.code.arena.branches number }
{
    program.code.arena.branches.as_slice().get(number).copied()
}

fn custom_at(program: &Compiled, number: usize) -> Option<usize>
    ensures { result ≡ slice_get program.now.code.customs number }
{
    program.code.customs.as_slice().get(number).copied()
}

fn text_at(program: &Compiled, number: usize) -> Option<&Text>
    ensures { option_copied result ≡ slice_get program.now.code.arena.texts number }
{
    program.code.arena.texts.as_slice().get(number)
}
