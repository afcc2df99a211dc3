// Expressions, statements and blocks in numbers.
use vcl_context::{Message, Variable};
use vcl_values::Comparison;

/// An expression. A number is that of another node, unless it says otherwise.
#[derive(Clone, Copy)]
pub enum Node {
    /// What has no meaning. No sound text has it.
    Absent,
    /// A text by its number.
    Text(usize),
    Int(i64),
    /// A time in milliseconds.
    Duration(i64),
    Truth(bool),
    /// A declared backend by its number.
    Backend(usize),
    Read(Variable),
    /// A field of a message, by the number of its name among the texts.
    ReadField(Message, usize),
    Either(usize, usize),
    Both(usize, usize),
    Not(usize),
    Compare(Comparison, usize, usize),
    /// Whether a text has a match of a pattern, by the pattern's number; with `false`, whether it has none.
    Matches(usize, usize, bool),
    /// Whether an address is in an ACL, by the ACL's number; with `false`, whether it isn't.
    InAcl(usize, usize, bool),
    Sum(usize, usize),
    Difference(usize, usize),
    /// A text with the first match of a pattern, or all matches, replaced: the text, the pattern's number, the replacement.
    Substitute(bool, usize, usize, usize),
    /// `xkey.purge`, or with `true` `xkey.softpurge`.
    Xkey(bool, usize),
    /// A director by its number, and the text that a hash director is asked with.
    Director(usize),
    DirectorFor(usize, usize),
    /// A stored function by its place in the table, with what it is called with.
    Stored(usize, Arguments),
}

/// The nodes of arguments. No function takes more than three.
#[derive(Clone, Copy)]
pub enum Arguments {
    Zero,
    One(usize),
    Two(usize, usize),
    Three(usize, usize, usize),
    More,
}

/// Statements one behind another: an action, and the number of the block that follows it.
#[derive(Clone, Copy)]
pub enum Block {
    End,
    Then(Action, usize),
}

/// A statement.
#[derive(Clone, Copy)]
pub enum Action {
    /// What has no meaning.
    Absent,
    Set(Variable, usize),
    Append(Variable, usize),
    /// A field by the number of its name among the texts.
    SetField(Message, usize, usize),
    AppendField(Message, usize, usize),
    UnsetField(Message, usize),
    /// A subroutine of the text's own by its number.
    Call(usize),
    If(Choice),
    Return(ReturnWord, Arguments),
    HashData(usize),
    Synthetic(usize),
    Ban(usize),
    /// An expression that is evaluated for what it does.
    Evaluate(usize),
}

/// A condition, and the block that is taken where it holds.
#[derive(Clone, Copy)]
pub struct Arm {
    pub condition: usize,
    pub block: usize,
}

/// A condition, the block that is taken where it holds, and what is taken otherwise.
#[derive(Clone, Copy)]
pub struct Branch {
    pub condition: usize,
    pub block: usize,
    pub otherwise: Choice,
}

/// What is taken: nothing, a branch by its number, or a block by its number.
#[derive(Clone, Copy)]
pub enum Choice {
    Nothing,
    Branch(usize),
    Block(usize),
}

/// The words of return.
#[derive(Clone, Copy, Debug, PartialEq, Eq)]
pub enum ReturnWord {
    Hash,
    Pass,
    Purge,
    Synth,
    Restart,
    Fail,
    Lookup,
    Deliver,
    Fetch,
    Error,
    Abandon,
    Retry,
    Ok,
}
