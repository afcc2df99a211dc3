// Statements and blocks in numbers.
ghost use Rattle.std.specs.Prelude.{◌≡◌, ◌∷◌, [], IfOk};
ghost use Rattle.vcl_code.specs.declared.arena.Arena.{Arena as Code};
ghost use Rattle.std.specs.Option.{option_copied};
ghost use Rattle.vcl_code.specs.Arenas.{at};
ghost use Rattle.vcl_code.specs.Sights.{target_seen};
ghost use Rattle.vcl_code.specs.Expressions.{given};
ghost use Rattle.vcl_code.specs.Statements.{acted, acts, arms_in, with_chain, if_acted, arm_of, set_acted, append_acted, unset_acted, call_acted, return_acted, performed, action_of, actions_of, numbered_block};

use crate::arena::Arena;
use crate::callees::{Builtin, word_of};
use crate::expressions::second_string;
use crate::names::{Callee, Target, callee_of, subroutine_of, target_of};
use crate::node::{Action, Arguments, Arm, Block, Branch, Choice, ReturnWord};
use std::alloc::{AllocError, Global};
use units::Text;
use vcl_context::Variable;
use vcl_symbols::SymbolTable;
use vcl_tree::{Action as Written, Block as WrittenBlock, Branch as WrittenBranch, Statement};
use vmod_host::JarUse;

impl Arena {
    /// A block, with the block of the number `next` behind it. The block of number 0 has no statement.
    #[tactic(auto, unfolding(crate::specs::Statements::numbered_block))]
    pub fn block(
        &mut self,
        alloc: Global,
        names: &SymbolTable<'_>,
        block: &WrittenBlock,
        next: usize,
    ) -> Result<usize, AllocError>
        ensures { IfOk result (λ number. numbered_block names.now block.now next self.old ≡ at number self.new) }
    {
        let actions = self.actions(alloc, names, block)?;
        self.push_chain(actions, next)
    }

    // The statements of a block.
    #[cycle(statements)]
    fn actions(
        &mut self,
        alloc: Global,
        names: &SymbolTable<'_>,
        block: &WrittenBlock,
    ) -> Result<Vec<Action>, AllocError>
        ensures { IfOk result (λ actions. actions_of names.now block.now self.old ≡ acts actions.items self.new) }
    {
        let mut actions = Vec::new(alloc);
        'statements: for statement in &block.statements {
            let action = self.statement(alloc, names, statement)?;
            actions.push(action)?;
        }
        Ok(actions)
    }

    // A condition with its block.
    #[cycle(statements)]
    #[tactic(auto, unfolding(crate::specs::Statements::arm_of))]
    fn arm(
        &mut self,
        alloc: Global,
        names: &SymbolTable<'_>,
        branch: &WrittenBranch,
    ) -> Result<Arm, AllocError>
        ensures { IfOk result (λ first. arm_of names.now branch.now self.old ≡ arms_in (first ∷ []) self.new) }
    {
        let condition = self.expression(alloc, names, &branch.condition)?;
        let actions = self.actions(alloc, names, &branch.block)?;
        let block = self.push_chain(actions, 0)?;
        Ok(Arm { condition, block })
    }

    #[cycle(statements)]
    #[tactic(auto, unfolding(crate::specs::Statements::action_of))]
    fn statement(
        &mut self,
        alloc: Global,
        names: &SymbolTable<'_>,
        statement: &Statement,
    ) -> Result<Action, AllocError>
        ensures { IfOk result (λ action. action_of names.now statement.now self.old ≡ acted action self.new) }
    {
        match &statement.action {
            Written::Set(_, name, e) => {
                let number = self.expression(alloc, names, e)?;
                self.set_action(alloc, target_of(name.text.bytes()), number)
            }
            Written::Append(_, name, e) => {
                let number = self.expression(alloc, names, e)?;
                self.append_action(alloc, target_of(name.text.bytes()), number)
            }
            Written::Unset(_, name) => self.unset_action(alloc, target_of(name.text.bytes())),
            Written::Call(_, name) => Ok(call_action(subroutine_of(names, name.text.bytes()))),
            Written::New(_, _, _, _) => Ok(Action::Absent),
            Written::Return(_, word) => {
                Ok(return_action(word_of(word.text.bytes()), Arguments::Zero))
            }
            Written::ReturnWith(_, word, arguments) => {
                let given = self.arguments(alloc, names, arguments.as_slice())?;
                Ok(return_action(word_of(word.text.bytes()), given))
            }
            Written::Run(name, arguments) => {
                let given = self.arguments(alloc, names, arguments.as_slice())?;
                let second = second_string(arguments.as_slice());
                self.perform(callee_of(names, name.text.bytes()), second, given)
            }
            Written::If(_, first, others, otherwise) => {
                let mut arms = Vec::new(alloc);
                let first = self.arm(alloc, names, first)?;
                arms.push(first)?;
                'others: for branch in others {
                    let other = self.arm(alloc, names, branch)?;
                    arms.push(other)?;
                }
                match otherwise {
                    None => self.push_arms(arms, Choice::Nothing),
                    Some(block) => {
                        let actions = self.actions(alloc, names, block)?;
                        let last = self.push_chain(actions, 0)?;
                        self.push_arms(arms, Choice::Block(last))
                    }
                }
            }
        }
    }

    // Actions one behind another, from the last on.
    fn push_chain(&mut self, mut actions: Vec<Action>, next: usize) -> Result<usize, AllocError>
        ensures { IfOk result (λ number. with_chain actions.items next self.old ≡ at number self.new) }
    {
        let mut next = next;
        'actions: while let Some(action) = actions.pop() {
            next = self.push_block(Block::Then(action, next))?;
        }
        Ok(next)
    }

    // Branches one behind another, from the last on.
    fn push_arms(&mut self, mut arms: Vec<Arm>, otherwise: Choice) -> Result<Action, AllocError>
        ensures { IfOk result (λ action. if_acted otherwise (arms_in arms.items self.old) ≡ acted action self.new) }
    {
        let mut otherwise = otherwise;
        'arms: while let Some(arm) = arms.pop() {
            let number = self.push_branch(Branch {
                condition: arm.condition,
                block: arm.block,
                otherwise,
            })?;
            otherwise = Choice::Branch(number);
        }
        Ok(Action::If(otherwise))
    }

    fn set_action(
        &mut self,
        alloc: Global,
        target: Target<'_>,
        number: usize,
    ) -> Result<Action, AllocError>
        ensures { IfOk result (λ action. set_acted (target_seen target.entry) (at number self.old) ≡ acted action self.new) }
    {
        match target {
            Target::Variable(variable) => Ok(Action::Set(variable, number)),
            Target::Field(message, name) => {
                let text = self.push_text(Text::of(alloc, name)?)?;
                Ok(Action::SetField(message, text, number))
            }
            Target::Absent => Ok(Action::Absent),
        }
    }

    fn append_action(
        &mut self,
        alloc: Global,
        target: Target<'_>,
        number: usize,
    ) -> Result<Action, AllocError>
        ensures { IfOk result (λ action. append_acted (target_seen target.entry) (at number self.old) ≡ acted action self.new) }
    {
        match target {
            Target::Variable(variable) => Ok(Action::Append(variable, number)),
            Target::Field(message, name) => {
                let text = self.push_text(Text::of(alloc, name)?)?;
                Ok(Action::AppendField(message, text, number))
            }
            Target::Absent => Ok(Action::Absent),
        }
    }

    fn unset_action(&mut self, alloc: Global, target: Target<'_>) -> Result<Action, AllocError>
        ensures { IfOk result (λ action. unset_acted (target_seen target.entry) self.old ≡ acted action self.new) }
    {
        match target {
            Target::Field(message, name) => {
                let text = self.push_text(Text::of(alloc, name)?)?;
                Ok(Action::UnsetField(message, text))
            }
            Target::Variable(_) | Target::Absent => Ok(Action::Absent),
        }
    }

    // A function that is called as a statement.
    fn perform(
        &mut self,
        callee: Callee,
        second: Option<&Text>,
        arguments: Arguments,
    ) -> Result<Action, AllocError>
        ensures { IfOk result (λ action. performed callee (option_copied second.entry) (given arguments self.old) ≡ acted action self.new) }
    {
        match (callee, arguments) {
            (Callee::Builtin(Builtin::HashData), Arguments::One(text)) => {
                Ok(Action::HashData(text))
            }
            (Callee::Builtin(Builtin::Synthetic), Arguments::One(text)) => {
                Ok(Action::Synthetic(text))
            }
            (Callee::Builtin(Builtin::Ban), Arguments::One(text)) => Ok(Action::Ban(text)),
            (Callee::Builtin(Builtin::HashData | Builtin::Synthetic | Builtin::Ban), _) => {
                Ok(Action::Absent)
            }
            (Callee::Absent, _) => Ok(Action::Absent),
            (Callee::Stored(_, JarUse::Changes), _) => {
                let text = self.push_call(callee, second, arguments)?;
                Ok(Action::Set(Variable::Jar, text))
            }
            _ => {
                let value = self.push_call(callee, second, arguments)?;
                Ok(Action::Evaluate(value))
            }
        }
    }
}

fn call_action(subroutine: Option<usize>) -> Action
    ensures { (a : Code) → call_acted subroutine a ≡ acted result a }
{
    match subroutine {
        Some(number) => Action::Call(number),
        None => Action::Absent,
    }
}

fn return_action(word: Option<ReturnWord>, arguments: Arguments) -> Action
    ensures { (a : Code) → return_acted word (given arguments a) ≡ acted result a }
{
    match word {
        Some(word) => Action::Return(word, arguments),
        None => Action::Absent,
    }
}
