// What the parts of a text are.
use vcl_tree::Comparison;

/// What a name is used for.
#[derive(Clone, Copy)]
pub enum Use {
    /// As a value, or as the ACL at the right of `~`.
    Read,
    /// By `set` with `=`.
    Set,
    /// By `set` with `+=`.
    Append,
    Unset,
    /// As the function that is called.
    Function,
    /// As what makes a director.
    Maker,
    /// As the word of `return`.
    Word,
    /// As the subroutine that is called.
    Subroutine,
}

/// What ties two parts.
#[derive(Clone, Copy)]
pub enum Form {
    /// Operands of `||` or `&&`.
    Junction,
    Compared(Comparison),
    Added,
    Subtracted,
    Inverted,
    Grouped,
    /// A function and its arguments.
    Call,
    /// Arguments, and one more.
    Argument,
    /// A variable and what it is set to.
    Assignment,
    /// `set` with `=`.
    Set,
    /// `set` with `+=`.
    Append,
    /// A statement of another kind that stands in traffic alone: `unset`, `call`, `if`.
    Ordinary,
    /// A word or a maker, and its arguments.
    Applied,
    /// The name of an object, and its maker with arguments.
    Object,
    New,
    Return,
    /// A condition and its block.
    Condition,
    /// Parts that ask nothing of each other.
    Apart,
}
