// The evaluation of an expression, which stops where a purge by keys is wanted.
ghost use Rattle.std.specs.Prelude.{◌≡◌, ◌∷◌, ◌++◌, [], List, IfOk, IsSome, Some, slice_get};
ghost use Rattle.vcl_values.specs.Values.{truth_of};
ghost use Rattle.vcl_context.specs.declared.turn.Answer.{Answer};
ghost use Rattle.vcl_operands.specs.Outs.{IsSure};
ghost use Rattle.vcl_operands.specs.Nodes.{world, value_at, rest_of, came_to, given_number, given_if, changed, combined};
ghost use Rattle.vcl_operands.specs.Values.{as_text};
ghost use Rattle.vcl_operands.specs.Steps.{step, given_due, purge_due, called_step, decided_step, given_step, entered_step};

use crate::calls::applied;
use crate::frame::{Binary, Doing, Frame, Plan, Unary, plan_of};
use crate::laws::compiled_falls;
use crate::leaves::leaf;
use crate::operators::{changed, combined, short_text};
use crate::stack::Stack;
use std::alloc::{AllocError, Global};
use std::marker::Model;
use units::{Sequence, Text};
use vcl_code::{Arguments, Node};
use vcl_context::Context;
use vcl_program::Compiled;
use vcl_values::Value;
use vmod_host::VmodTable;

/// The evaluation of an expression. Clauses see what waits for values, the innermost first.
#[derive(Drop)]
pub struct Evaluation {
    waiting: Stack<Frame>,
}

impl Model for Evaluation {
    ghost use Rattle.std.specs.Prelude.{List};
    ghost use Rattle.vcl_operands.specs.declared.frame.Frame.{Frame};

    ghost Value = { List Frame };

    ghost view = { λ e. e.waiting };
}

/// What an evaluation comes to.
#[derive(Drop)]
pub enum Outcome {
    Value(Value),
    /// A purge by these keys, soft or not, whose count is wanted.
    Purge(Text, bool),
    /// The run ends as `fail`.
    Fail,
}

impl Evaluation {
    /// One that waits for nothing.
    pub fn new(alloc: Global) -> Evaluation
        ensures { result ≡ [] }
    {
        Evaluation {
            waiting: Stack::new(alloc),
        }
    }

    /// Evaluates a node that isn't stuck.
    pub fn evaluate(
        &mut self,
        alloc: Global,
        program: &Compiled,
        functions: &VmodTable,
        context: &Context,
        number: usize,
    ) -> Result<Outcome, AllocError>
        requires fresh { self.old ≡ [] }
        requires sure { (s : List Answer) → IsSure (value_at (world program.now.code functions.now.stored context.now) number s) }
        ensures { IfOk result (λ outcome. (s : List Answer) → value_at (world program.now.code functions.now.stored context.now) number s
            ≡ came_to (world program.now.code functions.now.stored context.now) outcome self.new s) }
    {
        self.run(alloc, program, functions, context, Doing::Evaluate(number))
    }

    /// Goes on with the count of a purge.
    pub fn answer(
        &mut self,
        alloc: Global,
        program: &Compiled,
        functions: &VmodTable,
        context: &Context,
        count: i64,
    ) -> Result<Outcome, AllocError>
        requires { (s : List Answer) → IsSure (given_number (world program.now.code functions.now.stored context.now) self.old (Answer.Number count) s) }
        ensures { IfOk result (λ outcome. (s : List Answer) → given_number (world program.now.code functions.now.stored context.now) self.old (Answer.Number count) s
            ≡ came_to (world program.now.code functions.now.stored context.now) outcome self.new s) }
    {
        self.run(
            alloc,
            program,
            functions,
            context,
            Doing::Give(Value::Int(count)),
        )
    }

    fn run(
        &mut self,
        alloc: Global,
        program: &Compiled,
        functions: &VmodTable,
        context: &Context,
        first: Doing,
    ) -> Result<Outcome, AllocError>
        requires { (s : List Answer) → IsSure (rest_of (world program.now.code functions.now.stored context.now) first self.old s) }
        ensures { IfOk result (λ outcome. (s : List Answer) → rest_of (world program.now.code functions.now.stored context.now) first self.old s
            ≡ came_to (world program.now.code functions.now.stored context.now) outcome self.new s) }
    {
        compiled_falls(program);
        let mut doing = first;
        'steps: loop {
            doing = match doing {
                Doing::Evaluate(number) => {
                    self.entered(alloc, program, functions, context, number)?
                }
                Doing::Give(value) => match self.waiting.pop() {
                    None => return Ok(Outcome::Value(value)),
                    Some(frame) => self.given(alloc, program, functions, frame, value)?,
                },
                Doing::Need(keys, soft) => return Ok(Outcome::Purge(keys, soft)),
                Doing::Fail => return Ok(Outcome::Fail),
            };
        }
    }

    // A node is evaluated: what comes first of it.
    fn entered(
        &mut self,
        alloc: Global,
        program: &Compiled,
        functions: &VmodTable,
        context: &Context,
        number: usize,
    ) -> Result<Doing, AllocError>
        requires { IsSome (entered_step (world program.now.code functions.now.stored context.now) number self.old) }
        ensures { IfOk result (λ next. entered_step (world program.now.code functions.now.stored context.now) number self.old ≡ Some (step next self.new)) }
    {
        let Some(node) = node_at(program.code.arena.nodes.as_slice(), number) else {
            unreachable!();
        };
        match plan_of(node) {
            Plan::First(part, frame) => self.first(part, frame),
            Plan::Calls(function, arguments) => {
                self.called(alloc, functions, function, Sequence::new(alloc), arguments)
            }
            Plan::Leaf(node) => Ok(given_if(leaf(alloc, program, context, node)?)),
        }
    }

    // A part first, and what waits for it.
    fn first(&mut self, part: usize, frame: Frame) -> Result<Doing, AllocError>
        ensures { IfOk result (λ next. (next ≡ Doing.Evaluate part) × (self.new ≡ frame ∷ self.old)) }
    {
        self.waiting.push(frame)?;
        Ok(Doing::Evaluate(part))
    }

    // A value for what waits on top.
    fn given(
        &mut self,
        alloc: Global,
        program: &Compiled,
        functions: &VmodTable,
        frame: Frame,
        value: Value,
    ) -> Result<Doing, AllocError>
        requires { IsSome (given_step program.now.code functions.now.stored frame value self.old) }
        ensures { IfOk result (λ next. given_step program.now.code functions.now.stored frame value self.old ≡ Some (step next self.new)) }
    {
        match frame {
            Frame::One(what) => given_changed(alloc, program, what, &value),
            Frame::Left(what, right) => self.first(right, Frame::Right(what, value)),
            Frame::Right(what, left) => given_combined(alloc, program, what, &left, &value),
            Frame::Decide(decided, right) => self.decided(decided, right, &value),
            Frame::Purge(soft) => purge_due(alloc, soft, &value),
            Frame::Apply(function, values, rest) => {
                self.argument(alloc, functions, function, values, value, rest)
            }
        }
    }

    // The right side, unless the left one decides.
    fn decided(&mut self, decided: bool, right: usize, left: &Value) -> Result<Doing, AllocError>
        requires { IsSome (decided_step decided right (truth_of left.now) self.old) }
        ensures { IfOk result (λ next. decided_step decided right (truth_of left.now) self.old ≡ Some (step next self.new)) }
    {
        match left.truth() {
            None => unreachable!(),
            Some(truth) => {
                if truth == decided {
                    Ok(Doing::Give(Value::Bool(decided)))
                } else {
                    self.first(right, Frame::One(Unary::Truth))
                }
            }
        }
    }

    // A stored function with one more of its arguments.
    fn argument(
        &mut self,
        alloc: Global,
        functions: &VmodTable,
        function: usize,
        mut values: Sequence<Value>,
        value: Value,
        rest: Arguments,
    ) -> Result<Doing, AllocError>
        requires { IsSome (called_step functions.now.stored function (values ++ value ∷ []) rest self.old) }
        ensures { IfOk result (λ next. called_step functions.now.stored function (values ++ value ∷ []) rest self.old ≡ Some (step next self.new)) }
    {
        values.push(value)?;
        self.called(alloc, functions, function, values, rest)
    }

    // A stored function with some of its arguments: the next one, or its value.
    fn called(
        &mut self,
        alloc: Global,
        functions: &VmodTable,
        function: usize,
        values: Sequence<Value>,
        rest: Arguments,
    ) -> Result<Doing, AllocError>
        requires { IsSome (called_step functions.now.stored function values rest self.old) }
        ensures { IfOk result (λ next. called_step functions.now.stored function values rest self.old ≡ Some (step next self.new)) }
    {
        match rest {
            Arguments::Zero => Ok(given_if(applied(
                alloc,
                functions,
                function,
                values.as_slice(),
            )?)),
            Arguments::One(x) => self.first(x, Frame::Apply(function, values, Arguments::Zero)),
            Arguments::Two(x, y) => {
                self.first(x, Frame::Apply(function, values, Arguments::One(y)))
            }
            Arguments::Three(x, y, z) => {
                self.first(x, Frame::Apply(function, values, Arguments::Two(y, z)))
            }
            Arguments::More => unreachable!(),
        }
    }
}

// A value is given, if there is one.
fn given_if(value: Option<Value>) -> Doing
    ensures { result ≡ given_if value }
{
    match value {
        Some(value) => Doing::Give(value),
        None => Doing::Fail,
    }
}

// What is made of one value.
fn given_changed(
    alloc: Global,
    program: &Compiled,
    what: Unary,
    value: &Value,
) -> Result<Doing, AllocError>
    requires { IsSome (given_due (changed program.now.code what value.now)) }
    ensures { IfOk result (λ next. given_due (changed program.now.code what value.now) ≡ Some next) }
{
    Ok(given_if(changed(alloc, program, what, value)?))
}

// What is made of two values.
fn given_combined(
    alloc: Global,
    program: &Compiled,
    what: Binary,
    left: &Value,
    right: &Value,
) -> Result<Doing, AllocError>
    requires { IsSome (given_due (combined program.now.code what left.now right.now)) }
    ensures { IfOk result (λ next. given_due (combined program.now.code what left.now right.now) ≡ Some next) }
{
    Ok(given_if(combined(alloc, program, what, left, right)?))
}

fn purge_due(alloc: Global, soft: bool, keys: &Value) -> Result<Doing, AllocError>
    ensures { IfOk result (λ next. next ≡ purge_due soft (as_text keys.now)) }
{
    match short_text(alloc, keys)? {
        Some(keys) => Ok(Doing::Need(keys, soft)),
        None => Ok(Doing::Fail),
    }
}

fn node_at(nodes: &[Node], number: usize) -> Option<Node>
    ensures { result ≡ slice_get nodes.now number }
{
    nodes.get(number).copied()
}
