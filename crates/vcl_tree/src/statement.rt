// Statements.
ghost use Rattle.std.specs.Prelude.{◌≡◌, Some};
ghost use Rattle.vcl_tree.specs.Places.{place_of};

use crate::expression::Expression;
use crate::name::Name;
use std::marker::Model;

/// A statement.
#[cycle(statement)]
#[derive(Drop)]
pub struct Statement {
    pub action: Action,
}

/// What a statement does. A place is that of its first token.
#[cycle(statement)]
#[derive(Drop)]
pub enum Action {
    /// `set` of a variable.
    Set(u32, Name, Expression),
    /// `set` of a variable with `+=`.
    Append(u32, Name, Expression),
    Unset(u32, Name),
    /// `call` of a subroutine.
    Call(u32, Name),
    /// `new`: the object's name, its constructor and that one's arguments.
    New(u32, Name, Name, Vec<Expression>),
    /// `if`, each `else if` in order, and the block behind `else`.
    If(u32, Box<Branch>, Vec<Branch>, Option<Block>),
    /// `return` with a word.
    Return(u32, Name),
    /// `return` with a word and its arguments.
    ReturnWith(u32, Name, Vec<Expression>),
    /// A call of a function.
    Run(Name, Vec<Expression>),
}

/// A condition, and the block that is taken where it holds.
#[cycle(statement)]
#[derive(Drop)]
pub struct Branch {
    pub condition: Expression,
    pub block: Block,
}

/// Statements in braces.
#[cycle(statement)]
#[derive(Drop)]
pub struct Block {
    pub statements: Vec<Statement>,
}

impl Model for Statement {
    ghost use Rattle.vcl_tree.specs.Phrase.{Phrase, phrase_size};

    ghost Value = { Phrase };

    ghost use Rattle.vcl_tree.specs.PhraseCode.{phrase_code};

    ghost coded = { phrase_code };

    ghost use Rattle.vcl_tree.specs.StatementView.{statement_of};

    ghost view = { λ s. statement_of s.action };

    ghost size = { phrase_size };

    ghost use Rattle.vcl_tree.specs.StatementFalls.{falls};

    ghost size_decreases = { λ a h. falls a.action };
}

impl Model for Branch {
    ghost use Rattle.vcl_tree.specs.Phrase.{Phrase, phrase_size};

    ghost Value = { Phrase };

    ghost use Rattle.vcl_tree.specs.PhraseCode.{phrase_code};

    ghost coded = { phrase_code };

    ghost use Rattle.vcl_tree.specs.StatementView.{branch_of};

    ghost view = { λ b. branch_of b.condition b.block };

    ghost size = { phrase_size };

    ghost use Rattle.std.proofs.Common.{arith};

    ghost size_decreases = { λ a h. Prim.omega arith };
}

impl Model for Block {
    ghost use Rattle.vcl_tree.specs.Phrase.{Phrase, More, Nothing, list_of, phrase_size};

    ghost Value = { Phrase };

    ghost use Rattle.vcl_tree.specs.PhraseCode.{phrase_code};

    ghost coded = { phrase_code };

    ghost view = { λ b. list_of b.statements.items };

    ghost size = { phrase_size };

    ghost use Rattle.vcl_tree.specs.ExpressionFalls.{most_chain};
    ghost use Rattle.std.proofs.Common.{arith};

    ghost size_decreases = { λ a h. Prim.omega (arith, most_chain More Nothing a.statements.items) };
}

impl Statement {
    /// The place of its first token.
    pub fn place(&self) -> u32
        ensures { place_of self.now ≡ Some result }
    {
        match &self.action {
            Action::Set(place, _, _)
            | Action::Append(place, _, _)
            | Action::Unset(place, _)
            | Action::Call(place, _)
            | Action::New(place, _, _, _)
            | Action::Return(place, _)
            | Action::ReturnWith(place, _, _) => *place,
            Action::If(place, _, _, _) => *place,
            Action::Run(name, _) => name.place,
        }
    }
}
