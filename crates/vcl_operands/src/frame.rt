// What waits for a value, and what is done next.
ghost use Rattle.std.specs.Prelude.{◌≡◌};
ghost use Rattle.vcl_operands.specs.Nodes.{plan_of};

use units::{Sequence, Text};
use vcl_code::{Arguments, Node};
use vcl_values::{Comparison, Value};

/// What is done with one value.
#[derive(Clone, Copy)]
pub enum Unary {
    /// What it says in a condition, and the opposite.
    Truth,
    Not,
    /// A pattern's number, and whether a match is wanted.
    Match(usize, bool),
    /// An ACL's number, and whether an address in it is wanted.
    Seek(usize, bool),
    /// The number of a director that is asked with a text.
    Direct(usize),
}

/// What is done with two values.
#[derive(Clone, Copy)]
pub enum Binary {
    Compare(Comparison),
    Add,
    Subtract,
    /// All matches or the first one, and a pattern's number.
    Substitute(bool, usize),
}

/// What waits for a value.
#[derive(Drop)]
pub enum Frame {
    One(Unary),
    /// For the left one of two values; the right one's node.
    Left(Binary, usize),
    /// For the right one; the left one.
    Right(Binary, Value),
    /// For the left side of `||` (decided by true) or `&&` (decided by false); the right one's node.
    Decide(bool, usize),
    /// For the keys of a purge, which is soft or not.
    Purge(bool),
    /// For an argument of a stored function; those before it, and the nodes of those behind it.
    Apply(usize, Sequence<Value>, Arguments),
}

/// What is done next.
#[derive(Drop)]
pub enum Doing {
    /// A node is evaluated.
    Evaluate(usize),
    /// A value is given to what waits.
    Give(Value),
    /// A purge by keys is wanted, whose count is given.
    Need(Text, bool),
    /// The run ends.
    Fail,
}

/// How a node is evaluated.
#[derive(Drop)]
pub enum Plan {
    /// A part first, and what waits for it.
    First(usize, Frame),
    /// A stored function by its number, with its arguments.
    Calls(usize, Arguments),
    /// At once.
    Leaf(Node),
}

/// How a node is evaluated.
pub(crate) fn plan_of(node: Node) -> Plan
    ensures { result ≡ plan_of node }
{
    match node {
        Node::Either(left, right) => Plan::First(left, Frame::Decide(true, right)),
        Node::Both(left, right) => Plan::First(left, Frame::Decide(false, right)),
        Node::Not(operand) => Plan::First(operand, Frame::One(Unary::Not)),
        Node::Compare(how, left, right) => {
            Plan::First(left, Frame::Left(Binary::Compare(how), right))
        }
        Node::Matches(operand, pattern, wanted) => {
            Plan::First(operand, Frame::One(Unary::Match(pattern, wanted)))
        }
        Node::InAcl(operand, acl, wanted) => {
            Plan::First(operand, Frame::One(Unary::Seek(acl, wanted)))
        }
        Node::Sum(left, right) => Plan::First(left, Frame::Left(Binary::Add, right)),
        Node::Difference(left, right) => Plan::First(left, Frame::Left(Binary::Subtract, right)),
        Node::Substitute(all, text, pattern, by) => {
            Plan::First(text, Frame::Left(Binary::Substitute(all, pattern), by))
        }
        Node::Xkey(soft, keys) => Plan::First(keys, Frame::Purge(soft)),
        Node::DirectorFor(director, text) => {
            Plan::First(text, Frame::One(Unary::Direct(director)))
        }
        Node::Stored(function, arguments) => Plan::Calls(function, arguments),
        leaf => Plan::Leaf(leaf),
    }
}
