// What is seen of a part by what it belongs to.
use directors::DirectorKind;
use vcl_language::{Function, Variable, Word};
use vcl_tree::Fault;
use vcl_values::Kind;

/// What an expression gives.
#[derive(Clone, Copy)]
pub enum Sort {
    /// A value of this type. Where it has a fault, its type is unknown, and it fits everywhere.
    Value(Option<Kind>),
    /// It is the name of an ACL.
    Acl,
    /// It is a decimal: a weight, which a director takes and nothing else.
    Weight,
    /// It is no value: a call of a function without one, or a name that is declared as something else.
    Nothing,
}

/// What a name stands for where it is used.
#[derive(Clone, Copy)]
pub enum Meaning {
    Unknown,
    Variable(Variable),
    /// `true` or `false`.
    Truth,
    Backend,
    Acl,
    /// A name that is read and is declared as something else than a value: a probe, an object, a subroutine.
    NoValue,
    Subroutine,
    Function(Function),
    /// A method of an object whose maker isn't known.
    Method,
    Maker(DirectorKind),
    Word(Word),
}

/// What is known of an expression as it is written.
#[derive(Clone, Copy)]
pub enum Literal {
    /// It is one string.
    String,
    /// It is one number that may be a weight, from 1 to 1,000.
    Weight,
    Other,
}

/// An argument: what it gives, the place of its first token, and how it is written.
#[derive(Clone, Copy)]
pub struct Argument {
    pub sort: Sort,
    pub place: u32,
    pub literal: Literal,
}

/// The arguments of a call, from the left. No function takes more than three, so a fourth stands for all behind it.
pub type Arguments = [Option<Argument>; 4];

pub const NO_ARGUMENTS: Arguments = [None, None, None, None];

/// What is seen of a part.
#[derive(Clone, Copy)]
pub struct Seen {
    pub sort: Sort,
    /// The place of its first token.
    pub first: u32,
    /// In an assignment, the place of the first token of what is assigned.
    pub second: u32,
    /// What its name stands for.
    pub meaning: Meaning,
    pub literal: Literal,
    pub arguments: Arguments,
}

/// What is seen of a part, and its first fault.
#[derive(Clone, Copy)]
pub struct Told {
    pub seen: Seen,
    pub least: Option<Fault>,
}
