// How statements begin and what is done with the values of their expressions.
ghost use Rattle.std.specs.Prelude.{◌≡◌, Some};
ghost use Rattle.vcl_eval.specs.Runs.{plan_of};

use vcl_code::{Action, Arguments, Choice, ReturnWord};
use vcl_context::{Message, Variable};
use vcl_values::Value;

/// What is done with an expression's value.
#[derive(Drop)]
pub enum Finish {
    Assign(Variable),
    Append(Variable),
    /// A field by the number of its name among the texts.
    AssignField(Message, usize),
    AppendField(Message, usize),
    HashData,
    Synthetic,
    Ban,
    Forget,
    /// A branch by its number, for its condition.
    Choose(usize),
    Return(ReturnWord),
    /// For the first one of two values; the second one's node.
    ReturnFirst(ReturnWord, usize),
    /// For the second one; the first one.
    ReturnSecond(ReturnWord, Value),
}

/// How a statement begins.
#[derive(Drop)]
pub enum Plan {
    Evaluate(usize, Finish),
    Unset(Message, usize),
    Call(usize),
    Choose(Choice),
    Return(ReturnWord),
}

/// How a statement begins, if a sound text has it.
pub fn plan_of(action: Action) -> Option<Plan>
    ensures { result ≡ plan_of action }
{
    match action {
        Action::Set(variable, e) => evaluates(e, Finish::Assign(variable)),
        Action::Append(variable, e) => evaluates(e, Finish::Append(variable)),
        Action::SetField(message, name, e) => evaluates(e, Finish::AssignField(message, name)),
        Action::AppendField(message, name, e) => evaluates(e, Finish::AppendField(message, name)),
        Action::UnsetField(message, name) => Some(Plan::Unset(message, name)),
        Action::Call(number) => Some(Plan::Call(number)),
        Action::If(choice) => Some(Plan::Choose(choice)),
        Action::Return(word, Arguments::Zero) => Some(Plan::Return(word)),
        Action::Return(word, Arguments::One(e)) => evaluates(e, Finish::Return(word)),
        Action::Return(word, Arguments::Two(e, f)) => evaluates(e, Finish::ReturnFirst(word, f)),
        Action::HashData(e) => evaluates(e, Finish::HashData),
        Action::Synthetic(e) => evaluates(e, Finish::Synthetic),
        Action::Ban(e) => evaluates(e, Finish::Ban),
        Action::Evaluate(e) => evaluates(e, Finish::Forget),
        Action::Return(_, Arguments::Three(_, _, _) | Arguments::More) | Action::Absent => None,
    }
}

fn evaluates(e: usize, what: Finish) -> Option<Plan>
    ensures { result ≡ Some (Plan.Evaluate e what) }
{
    Some(Plan::Evaluate(e, what))
}
