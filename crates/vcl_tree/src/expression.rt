// Expressions.
ghost use Rattle.std.specs.Prelude.{◌≡◌, Some};
ghost use Rattle.vcl_tree.specs.Places.{place_of};

use std::marker::Model;
use units::Text;

/// An expression. Chains of one operator are lists, so that a tree is no deeper than its text nests, and the first operand
/// of a chain binds tighter than the chain's operator: an expression has one form.
#[cycle(expression)]
#[derive(Drop)]
pub struct Expression {
    pub operation: Operation,
}

/// What an expression is made of. A place is that of the first token, where no operand stands before it.
#[cycle(expression)]
#[derive(Drop)]
pub enum Operation {
    /// One or more of the operands hold, of which there are two and maybe others.
    Any(Box<Expression>, Box<Expression>, Vec<Expression>),
    /// All of the operands hold.
    All(Box<Expression>, Box<Expression>, Vec<Expression>),
    Not(u32, Box<Expression>),
    Compare(Comparison, Box<Expression>, Box<Expression>),
    /// A sum from left to right: a term, a further one, and maybe others.
    Sum(Box<Expression>, Box<Addend>, Vec<Addend>),
    /// An expression in parentheses.
    Group(u32, Box<Expression>),
    String(u32, Text),
    /// An integer; one below 0 has its place at the minus sign.
    Integer(u32, i64),
    /// A decimal as it is written, with a fraction of zeros.
    Weight(u32, Text),
    /// A duration in milliseconds, likewise.
    Duration(u32, i64),
    /// A variable, or another name.
    Name(u32, Text),
    /// A call of the function of this name.
    Call(u32, Text, Vec<Expression>),
}

/// A further term of a sum.
#[cycle(expression)]
#[derive(Drop)]
pub struct Addend {
    pub sign: Addition,
    pub term: Expression,
}

#[derive(Clone, Copy, Debug, PartialEq, Eq)]
pub enum Addition {
    Plus,
    Minus,
}

#[derive(Clone, Copy, Debug, PartialEq, Eq)]
pub enum Comparison {
    Equal,
    NotEqual,
    Less,
    LessOrEqual,
    Greater,
    GreaterOrEqual,
    Match,
    NotMatch,
}

impl Model for Expression {
    ghost use Rattle.vcl_tree.specs.Phrase.{Phrase, phrase_size};

    ghost Value = { Phrase };

    ghost use Rattle.vcl_tree.specs.PhraseCode.{phrase_code};

    ghost coded = { phrase_code };

    ghost use Rattle.vcl_tree.specs.ExpressionView.{expression_of};

    ghost view = { λ e. expression_of e.operation };

    ghost use Rattle.vcl_tree.specs.ExpressionForm.{HasOneForm};

    ghost invariant = { λ e. HasOneForm e.operation };

    ghost size = { phrase_size };

    ghost use Rattle.vcl_tree.specs.ExpressionFalls.{falls};

    ghost size_decreases = { λ a h. falls a.operation };
}

impl Expression {
    /// The place of its first token.
    pub fn place(&self) -> u32
        ensures { place_of self.now ≡ Some result }
    {
        match &self.operation {
            Operation::Any(first, _, _) => first.place(),
            Operation::All(first, _, _) => first.place(),
            Operation::Compare(_, left, _) => left.place(),
            Operation::Sum(first, _, _) => first.place(),
            Operation::Not(place, _)
            | Operation::Group(place, _)
            | Operation::String(place, _)
            | Operation::Integer(place, _)
            | Operation::Weight(place, _)
            | Operation::Duration(place, _)
            | Operation::Name(place, _)
            | Operation::Call(place, _, _) => *place,
        }
    }
}
