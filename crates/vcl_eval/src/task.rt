// What a run does next.
use crate::finish::Finish;
use units::Text;
use vcl_context::Return;
use vcl_values::Value;

/// What a run does next.
#[derive(Drop)]
pub enum Task {
    /// The block on top.
    Run,
    /// An expression, and what is done with its value.
    Evaluate(usize, Finish),
    Finish(Finish, Value),
    /// A ban of this text is wanted.
    Ban(Text),
    /// A purge by these keys, soft or not, for an expression with what is done with its value.
    Purge(Text, bool, Finish),
    End(Return),
}

/// What a run comes to: a command that is wanted, or the end.
#[derive(Drop)]
pub enum Stop {
    Ban(Text),
    /// A purge by these keys, soft or not, for an expression with what is done with its value.
    Purge(Text, bool, Finish),
    End(Return),
}
