// Expressions in numbers.
ghost use Rattle.std.specs.Prelude.{◌≡◌, IfOk, option_map};
ghost use Rattle.std.specs.Option.{option_copied};
ghost use Rattle.vcl_tree.specs.Phrase.{list_of};
ghost use Rattle.vcl_code.specs.Arenas.{with_node, at};
ghost use Rattle.vcl_code.specs.Sights.{read_seen};
ghost use Rattle.vcl_code.specs.Expressions.{numbered, numbered_arguments, operands_of, terms_of, joined, text_node, read_node, matched, in_acl, searched, ordered_as, asks_match, given, with_argument, in_front, passed, second_string, string_of, summed, substitution, xkey, director, called};

use crate::arena::Arena;
use crate::callees::Builtin;
use crate::names::{Callee, Read, Target, acl_of, callee_of, read_of};
use crate::node::{Arguments, Node};
use std::alloc::{AllocError, Global};
use units::Text;
use vcl_context::Variable;
use vcl_symbols::SymbolTable;
use vcl_tree::{Addend, Addition, Comparison as Asked, Expression, Operation};
use vcl_values::Comparison;
use vmod_host::JarUse;

impl Arena {
    /// An expression, with all its parts before it.
    #[cycle(expression)]
    #[tactic(auto, unfolding(crate::specs::Expressions::numbered))]
    pub fn expression(
        &mut self,
        alloc: Global,
        names: &SymbolTable<'_>,
        e: &Expression,
    ) -> Result<usize, AllocError>
        ensures { IfOk result (λ number. numbered names.now e.now self.old ≡ at number self.new) }
    {
        match &e.operation {
            Operation::Any(first, second, others) => {
                self.junction(alloc, names, Junction::Any, first, second, others)
            }
            Operation::All(first, second, others) => {
                self.junction(alloc, names, Junction::All, first, second, others)
            }
            Operation::Sum(first, second, others) => self.sum(alloc, names, first, second, others),
            Operation::Not(_, operand) => {
                let operand = self.expression(alloc, names, operand)?;
                self.push_node(Node::Not(operand))
            }
            Operation::Compare(how, left, right) => {
                let operand = self.expression(alloc, names, left)?;
                match ordered_as(*how) {
                    Some(comparison) => {
                        let other = self.expression(alloc, names, right)?;
                        self.push_node(Node::Compare(comparison, operand, other))
                    }
                    None => self.push_match(names, asks_match(*how), operand, right),
                }
            }
            Operation::Group(_, inner) => self.expression(alloc, names, inner),
            Operation::String(_, text) => self.push_string(text),
            Operation::Integer(_, number) => self.push_node(Node::Int(*number)),
            Operation::Weight(_, _) => self.push_node(Node::Absent),
            Operation::Duration(_, time) => self.push_node(Node::Duration(*time)),
            Operation::Name(_, name) => self.push_read(alloc, read_of(names, name.bytes())),
            Operation::Call(_, name, arguments) => {
                let given = self.arguments(alloc, names, arguments)?;
                let second = second_string(arguments);
                self.push_call(callee_of(names, name.bytes()), second, given)
            }
        }
    }

    // A chain of operands, each behind the node of those before it.
    #[cycle(expression)]
    fn junction(
        &mut self,
        alloc: Global,
        names: &SymbolTable<'_>,
        junction: Junction,
        first: &Expression,
        second: &Expression,
        others: &[Expression],
    ) -> Result<usize, AllocError>
        ensures { IfOk result (λ number. numbered names.now (operands_of junction first.now second.now others.now) self.old ≡ at number self.new) }
    {
        let left = self.expression(alloc, names, first)?;
        let right = self.expression(alloc, names, second)?;
        let mut front = self.push_node(joined(junction, left, right))?;
        'operands: for operand in others {
            let next = self.expression(alloc, names, operand)?;
            front = self.push_node(joined(junction, front, next))?;
        }
        Ok(front)
    }

    // A sum, each term behind the node of those before it.
    #[cycle(expression)]
    fn sum(
        &mut self,
        alloc: Global,
        names: &SymbolTable<'_>,
        first: &Expression,
        second: &Addend,
        others: &[Addend],
    ) -> Result<usize, AllocError>
        ensures { IfOk result (λ number. numbered names.now (terms_of first.now second.now others.now) self.old ≡ at number self.new) }
    {
        let left = self.expression(alloc, names, first)?;
        let right = self.expression(alloc, names, &second.term)?;
        let mut front = self.push_node(summed(second.sign, left, right))?;
        'terms: for addend in others {
            let next = self.expression(alloc, names, &addend.term)?;
            front = self.push_node(summed(addend.sign, front, next))?;
        }
        Ok(front)
    }

    /// The numbers of arguments.
    #[cycle(expression)]
    pub(crate) fn arguments(
        &mut self,
        alloc: Global,
        names: &SymbolTable<'_>,
        arguments: &[Expression],
    ) -> Result<Arguments, AllocError>
        ensures { IfOk result (λ arguments'. numbered_arguments names.now (list_of arguments.now) self.old ≡ given arguments' self.new) }
    {
        let mut given = Arguments::Zero;
        'arguments: for argument in arguments {
            let number = self.expression(alloc, names, argument)?;
            given = given.with(number);
        }
        Ok(given)
    }

    fn push_string(&mut self, text: &Text) -> Result<usize, AllocError>
        ensures { IfOk result (λ number. text_node text.now self.old ≡ at number self.new) }
    {
        let number = self.push_text(text.copy()?)?;
        self.push_node(Node::Text(number))
    }

    fn push_read(&mut self, alloc: Global, read: Read<'_>) -> Result<usize, AllocError>
        ensures { IfOk result (λ number. read_node (read_seen read.entry) self.old ≡ at number self.new) }
    {
        match read {
            Read::Target(Target::Variable(variable)) => self.push_node(Node::Read(variable)),
            Read::Target(Target::Field(message, name)) => {
                let number = self.push_text(Text::of(alloc, name)?)?;
                self.push_node(Node::ReadField(message, number))
            }
            Read::Truth(truth) => self.push_node(Node::Truth(truth)),
            Read::Backend(number) => self.push_node(Node::Backend(number)),
            Read::Target(Target::Absent) | Read::Absent => self.push_node(Node::Absent),
        }
    }

    // An operand with what it is matched with.
    fn push_match(
        &mut self,
        names: &SymbolTable<'_>,
        truth: bool,
        operand: usize,
        with: &Expression,
    ) -> Result<usize, AllocError>
        ensures { IfOk result (λ number. matched names.now truth (at operand self.old) with.now ≡ at number self.new) }
    {
        match &with.operation {
            Operation::String(_, source) => {
                let pattern = self.push_pattern(source.copy()?)?;
                self.push_node(Node::Matches(operand, pattern, truth))
            }
            Operation::Name(_, name) => match acl_of(names, name.bytes()) {
                Some(acl) => self.push_node(Node::InAcl(operand, acl, truth)),
                None => self.push_node(Node::Absent),
            },
            _ => self.push_node(Node::Absent),
        }
    }

    /// What is called with which arguments; `second` is the second of three, where it is one string.
    pub(crate) fn push_call(
        &mut self,
        callee: Callee,
        second: Option<&Text>,
        arguments: Arguments,
    ) -> Result<usize, AllocError>
        ensures { IfOk result (λ number. called callee (option_copied second.entry) (given arguments self.old) ≡ at number self.new) }
    {
        match callee {
            Callee::Builtin(Builtin::Substitute(all)) => {
                self.push_substitution(all, second, arguments)
            }
            Callee::Builtin(Builtin::Xkey(soft)) => match arguments {
                Arguments::One(keys) => self.push_node(Node::Xkey(soft, keys)),
                _ => self.push_node(Node::Absent),
            },
            Callee::Stored(number, jar) => {
                let passed = self.push_jar(jar, arguments)?;
                self.push_node(Node::Stored(number, passed))
            }
            Callee::Director(number) => match arguments {
                Arguments::Zero => self.push_node(Node::Director(number)),
                Arguments::One(text) => self.push_node(Node::DirectorFor(number, text)),
                _ => self.push_node(Node::Absent),
            },
            _ => self.push_node(Node::Absent),
        }
    }

    // The arguments of a stored function, behind the jar's text where it has a jar.
    fn push_jar(&mut self, jar: JarUse, arguments: Arguments) -> Result<Arguments, AllocError>
        ensures { IfOk result (λ arguments'. passed jar (given arguments self.old) ≡ given arguments' self.new) }
    {
        match jar {
            JarUse::None => Ok(arguments),
            JarUse::Asks | JarUse::Changes => {
                let text = self.push_node(Node::Read(Variable::Jar))?;
                Ok(arguments.behind(text))
            }
        }
    }

    fn push_substitution(
        &mut self,
        all: bool,
        second: Option<&Text>,
        arguments: Arguments,
    ) -> Result<usize, AllocError>
        ensures { IfOk result (λ number. substitution all (option_copied second.entry) arguments self.old ≡ at number self.new) }
    {
        match (second, arguments) {
            (Some(source), Arguments::Three(text, _, by)) => {
                let pattern = self.push_pattern(source.copy()?)?;
                self.push_node(Node::Substitute(all, text, pattern, by))
            }
            _ => self.push_node(Node::Absent),
        }
    }
}

impl Arguments {
    /// One argument more.
    pub(crate) fn with(self, number: usize) -> Arguments
        ensures { result ≡ with_argument self number }
    {
        match self {
            Arguments::Zero => Arguments::One(number),
            Arguments::One(first) => Arguments::Two(first, number),
            Arguments::Two(first, second) => Arguments::Three(first, second, number),
            Arguments::Three(_, _, _) | Arguments::More => Arguments::More,
        }
    }

    // One argument before them.
    fn behind(self, number: usize) -> Arguments
        ensures { result ≡ in_front number self }
    {
        match self {
            Arguments::Zero => Arguments::One(number),
            Arguments::One(second) => Arguments::Two(number, second),
            Arguments::Two(second, third) => Arguments::Three(number, second, third),
            Arguments::Three(_, _, _) | Arguments::More => Arguments::More,
        }
    }
}

// What ties operands of truth.
#[derive(Clone, Copy)]
enum Junction {
    Any,
    All,
}

fn joined(junction: Junction, left: usize, right: usize) -> Node
    ensures { result ≡ joined junction left right }
{
    match junction {
        Junction::Any => Node::Either(left, right),
        Junction::All => Node::Both(left, right),
    }
}

fn summed(sign: Addition, left: usize, right: usize) -> Node
    ensures { result ≡ summed sign left right }
{
    match sign {
        Addition::Plus => Node::Sum(left, right),
        Addition::Minus => Node::Difference(left, right),
    }
}

// The comparison of two values, unless it is a match.
fn ordered_as(how: Asked) -> Option<Comparison>
    ensures { result ≡ ordered_as how }
{
    match how {
        Asked::Equal => Some(Comparison::Equal),
        Asked::NotEqual => Some(Comparison::NotEqual),
        Asked::Less => Some(Comparison::Less),
        Asked::LessOrEqual => Some(Comparison::LessOrEqual),
        Asked::Greater => Some(Comparison::Greater),
        Asked::GreaterOrEqual => Some(Comparison::GreaterOrEqual),
        Asked::Match | Asked::NotMatch => None,
    }
}

fn asks_match(how: Asked) -> bool
    ensures { result ≡ asks_match how }
{
    matches!(how, Asked::Match)
}

// The second of three arguments, where it is one string.
pub(crate) fn second_string(arguments: &[Expression]) -> Option<&Text>
    ensures { option_copied result ≡ second_string (list_of arguments.now) }
{
    if arguments.len() != 3 {
        return None;
    }
    string_of(&arguments[1])
}

fn string_of(e: &Expression) -> Option<&Text>
    ensures { option_copied result ≡ string_of e.now }
{
    match &e.operation {
        Operation::String(_, text) => Some(text),
        _ => None,
    }
}
