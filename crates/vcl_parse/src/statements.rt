// Statements and blocks.
#![tactic(auto, using(crate::proofs::Reading::reading))]

ghost use Rattle.std.specs.Prelude.{◌≡◌, ◌∷◌, ◌++◌, [], ◌≤◌, ℕ, List, false, MatchOption, MatchResult, length};
ghost use Rattle.vcl_tree.specs.Phrase.{Phrase, Named, At};
ghost use Rattle.vcl_tree.specs.declared.token.Sign.TheVariants as sign;
ghost use Rattle.vcl_parse.specs.Machine.{Want, Read, Go, Join, Take, AnyName, NewName, Assignment, Arguments, Ending, Condition, AfterElse, MoreElse, MoreStatements, watch};
ghost use Rattle.vcl_tree.specs.Endings.{adds_backend};
ghost use Rattle.vcl_parse.specs.Machine as machine;
ghost use Rattle.vcl_tree.specs.Phrase.{Called, Bound, New, Unset, Jump, Return, If};
ghost use Rattle.vcl_parse.specs.Steps.{IsRead, IsReadOn, IsReadAll, ReadsAll, IsStopped, IsStoppedAll, StopsOne, Ends, CarriesOn, Assigns, else_wants};

use crate::expressions::{any, arguments};
use crate::lists::add;
use crate::making::{
    called_statement, if_of, jump_of, new_of, return_of, return_with, set_of, unset_of,
};
use crate::names::takes_weight;
use crate::signs::{any_name, begins, behind_sign, ended, enter, new_name, split};
use crate::starts::{ElseWord, StatementWord, else_word, statement_word};
use crate::stop::{Stop, given_up};
use std::alloc::Global;
use units::Text;
use vcl_tree::{Block, Branch, Sign, Statement, Token, TokenKind};

/// Statements in braces.
#[cycle(statement)]
pub fn block(alloc: Global, depth: u32, tokens: &[Token]) -> Result<(Block, &[Token]), Stop>
    ensures { MatchResult result
        (λ x. IsRead (Read machine.Block) depth tokens.now x.0 x.1.now)
        (λ why. IsStopped (Read machine.Block) depth tokens.now why) }
{
    let Some((_, behind)) = behind_sign(tokens, Sign::OpenBrace) else {
        return Err(Stop::Syntax(tokens.len()));
    };
    let deeper = enter(depth, tokens.len())?;
    let mut statements = Vec::new(alloc);
    let mut rest = behind;
    'statements: loop {
        match statement_at(alloc, deeper, rest) {
            Ok(Some((statement, later))) => {
                if let Err(why) = add(&mut statements, statement) {
                    return Err(given_up(statements, why));
                }
                rest = later;
            }
            Ok(None) => return ended(Block { statements }, rest, Sign::CloseBrace),
            Err(why) => return Err(given_up(statements, why)),
        }
    }
}

// The statement at the front, if one begins there.
#[cycle(statement)]
fn statement_at(
    alloc: Global,
    depth: u32,
    tokens: &[Token],
) -> Result<Option<(Statement, &[Token])>, Stop>
    ensures { MatchResult result
        (λ found. MatchOption found
        (Ends MoreStatements tokens.now)
        (λ x. CarriesOn MoreStatements depth tokens.now x.0 x.1.now))
        (λ why. IsStopped (Go MoreStatements) depth tokens.now why) }
{
    let Some((first, rest)) = split(tokens) else {
        return Ok(None);
    };
    match &first.kind {
        TokenKind::Name(name) => Ok(Some(run(alloc, depth, first.place, name, rest)?)),
        TokenKind::Word(word, _) => match statement_word(*word) {
            StatementWord::Set => Ok(Some(set(alloc, depth, first.place, rest)?)),
            StatementWord::Unset => Ok(Some(unset(first.place, rest)?)),
            StatementWord::Call => Ok(Some(jump(first.place, rest)?)),
            StatementWord::New => Ok(Some(new(alloc, depth, first.place, rest)?)),
            StatementWord::If => Ok(Some(conditional(alloc, depth, first.place, rest)?)),
            StatementWord::Return => Ok(Some(leave(alloc, depth, first.place, rest)?)),
            StatementWord::Nothing => Ok(None),
        },
        TokenKind::Integer(_)
        | TokenKind::Decimal(_)
        | TokenKind::Duration(_)
        | TokenKind::String(_)
        | TokenKind::Sign(_) => Ok(None),
    }
}

// What stands behind `if`, with its other branches.
#[cycle(statement)]
fn conditional(
    alloc: Global,
    depth: u32,
    place: u32,
    tokens: &[Token],
) -> Result<(Statement, &[Token]), Stop>
    ensures { MatchResult result
        (λ x. IsReadAll (Read Condition ∷ Join If ∷ Go MoreElse ∷ []) depth (At place) tokens.now x.0 x.1.now)
        (λ why. IsStoppedAll (Read Condition ∷ Join If ∷ Go MoreElse ∷ []) depth (At place) tokens.now why) }
{
    let (first, mut rest) = branch(alloc, depth, tokens)?;
    let mut others = Vec::new(alloc);
    'branches: loop {
        let (word, behind) = else_at(rest);
        match word {
            ElseWord::ElseIf => {
                let (further, later) = match branch(alloc, depth, behind) {
                    Ok(read) => read,
                    Err(why) => return Err(given_up((first, others), why)),
                };
                if let Err(why) = add(&mut others, further) {
                    return Err(given_up((first, others), why));
                }
                rest = later;
            }
            ElseWord::Else => {
                let (block, later) = match block(alloc, depth, behind) {
                    Ok(read) => read,
                    Err(why) => return Err(given_up((first, others), why)),
                };
                return Ok((if_of(alloc, place, first, others, Some(block))?, later));
            }
            ElseWord::Nothing => return Ok((if_of(alloc, place, first, others, None)?, behind)),
        }
    }
}

// A condition in parentheses, and a block.
#[cycle(statement)]
fn branch(alloc: Global, depth: u32, tokens: &[Token]) -> Result<(Branch, &[Token]), Stop>
    ensures { MatchResult result
        (λ x. IsRead (Read Condition) depth tokens.now x.0 x.1.now)
        (λ why. IsStopped (Read Condition) depth tokens.now why) }
{
    let Some((_, behind)) = behind_sign(tokens, Sign::OpenParenthesis) else {
        return Err(Stop::Syntax(tokens.len()));
    };
    let deeper = enter(depth, tokens.len())?;
    let (condition, rest) = any(alloc, deeper, behind)?;
    let (condition, rest) = ended(condition, rest, Sign::CloseParenthesis)?;
    match block(alloc, depth, rest) {
        Ok((block, rest)) => Ok((Branch { condition, block }, rest)),
        Err(why) => Err(given_up(condition, why)),
    }
}

// How a conditional statement goes on, and what stands behind the words that say so.
fn else_at(tokens: &[Token]) -> (ElseWord, &[Token])
    ensures shorter { length result.1.now ≤ length tokens.now }
    ensures watched { (depth : ℕ) (s : List Want) (vs : List Phrase) →
        watch depth (Go MoreElse ∷ s) vs tokens.now ≡ watch depth (else_wants result.0 ++ s) vs result.1.now }
{
    let Some((first, rest)) = split(tokens) else {
        return (ElseWord::Nothing, tokens);
    };
    match &first.kind {
        TokenKind::Word(word, _) => match else_word(*word) {
            ElseWord::ElseIf => (ElseWord::ElseIf, rest),
            ElseWord::Else => behind_else(rest),
            ElseWord::Nothing => (ElseWord::Nothing, tokens),
        },
        TokenKind::Name(_)
        | TokenKind::Integer(_)
        | TokenKind::Decimal(_)
        | TokenKind::Duration(_)
        | TokenKind::String(_)
        | TokenKind::Sign(_) => (ElseWord::Nothing, tokens),
    }
}

// What stands behind `else`: an `if`, or else a block.
fn behind_else(tokens: &[Token]) -> (ElseWord, &[Token])
    ensures shorter { length result.1.now ≤ length tokens.now }
    ensures watched { (depth : ℕ) (s : List Want) (vs : List Phrase) →
        watch depth (Read AfterElse ∷ s) vs tokens.now ≡ watch depth (else_wants result.0 ++ s) vs result.1.now }
{
    let Some((first, rest)) = split(tokens) else {
        return (ElseWord::Else, tokens);
    };
    match &first.kind {
        TokenKind::Word(word, _) => {
            if is_if(statement_word(*word)) {
                (ElseWord::ElseIf, rest)
            } else {
                (ElseWord::Else, tokens)
            }
        }
        TokenKind::Name(_)
        | TokenKind::Integer(_)
        | TokenKind::Decimal(_)
        | TokenKind::Duration(_)
        | TokenKind::String(_)
        | TokenKind::Sign(_) => (ElseWord::Else, tokens),
    }
}

fn is_if(word: StatementWord) -> bool
    ensures { result ≡ machine.is_if word }
{
    matches!(word, StatementWord::If)
}

// A call of a function that stands as a statement, behind its name.
fn run<'a>(
    alloc: Global,
    depth: u32,
    place: u32,
    name: &Text,
    tokens: &'a [Token],
) -> Result<(Statement, &'a [Token]), Stop>
    ensures { MatchResult result
        (λ x. IsReadAll (Read (Arguments (adds_backend name.now)) ∷ Join Called ∷ Take sign.Semicolon ∷ []) depth (Named place name.now) tokens.now x.0 x.1.now)
        (λ why. IsStoppedAll (Read (Arguments (adds_backend name.now)) ∷ Join Called ∷ Take sign.Semicolon ∷ []) depth (Named place name.now) tokens.now why) }
{
    let (arguments, rest) = arguments(alloc, depth, takes_weight(name.bytes()), tokens)?;
    let (arguments, rest) = ended(arguments, rest, Sign::Semicolon)?;
    Ok((called_statement(place, name, arguments)?, rest))
}

fn set(
    alloc: Global,
    depth: u32,
    place: u32,
    tokens: &[Token],
) -> Result<(Statement, &[Token]), Stop>
    ensures { MatchResult result
        (λ x. IsReadAll (AnyName ∷ Read Assignment ∷ []) depth (At place) tokens.now x.0 x.1.now)
        (λ why. IsStoppedAll (AnyName ∷ Read Assignment ∷ []) depth (At place) tokens.now why) }
{
    let (name, rest) = any_name(tokens)?;
    let (appends, rest) = match assignment(rest) {
        Ok(read) => read,
        Err(why) => return Err(given_up(name, why)),
    };
    match any(alloc, depth, rest) {
        Ok((value, rest)) => ended(set_of(appends, place, name, value), rest, Sign::Semicolon),
        Err(why) => Err(given_up(name, why)),
    }
}

// The sign of an assignment: whether it appends.
fn assignment(tokens: &[Token]) -> Result<(bool, &[Token]), Stop>
    ensures { MatchResult result
        (λ x. Assigns tokens.now x.0 x.1.now)
        (λ why. StopsOne (Read Assignment) tokens.now why) }
{
    if let Some((_, rest)) = behind_sign(tokens, Sign::Assign) {
        return Ok((false, rest));
    }
    match behind_sign(tokens, Sign::AddAssign) {
        Some((_, rest)) => Ok((true, rest)),
        None => Err(Stop::Syntax(tokens.len())),
    }
}

fn unset(place: u32, tokens: &[Token]) -> Result<(Statement, &[Token]), Stop>
    ensures { MatchResult result
        (λ x. ReadsAll (AnyName ∷ Take sign.Semicolon ∷ Join Unset ∷ []) (At place) tokens.now x.0 x.1.now)
        (λ why. (depth : ℕ) → IsStoppedAll (AnyName ∷ Take sign.Semicolon ∷ Join Unset ∷ []) depth (At place) tokens.now why) }
{
    let (name, rest) = any_name(tokens)?;
    ended(unset_of(place, name), rest, Sign::Semicolon)
}

fn jump(place: u32, tokens: &[Token]) -> Result<(Statement, &[Token]), Stop>
    ensures { MatchResult result
        (λ x. ReadsAll (AnyName ∷ Take sign.Semicolon ∷ Join Jump ∷ []) (At place) tokens.now x.0 x.1.now)
        (λ why. (depth : ℕ) → IsStoppedAll (AnyName ∷ Take sign.Semicolon ∷ Join Jump ∷ []) depth (At place) tokens.now why) }
{
    let (name, rest) = any_name(tokens)?;
    ended(jump_of(place, name), rest, Sign::Semicolon)
}

fn new(
    alloc: Global,
    depth: u32,
    place: u32,
    tokens: &[Token],
) -> Result<(Statement, &[Token]), Stop>
    ensures { MatchResult result
        (λ x. IsReadAll (NewName ∷ Take sign.Assign ∷ AnyName ∷ Read (Arguments false) ∷ Join Called ∷ Take sign.Semicolon ∷ Join Bound ∷ Join New ∷ []) depth (At place) tokens.now x.0 x.1.now)
        (λ why. IsStoppedAll (NewName ∷ Take sign.Assign ∷ AnyName ∷ Read (Arguments false) ∷ Join Called ∷ Take sign.Semicolon ∷ Join Bound ∷ Join New ∷ []) depth (At place) tokens.now why) }
{
    let (name, rest) = new_name(tokens)?;
    let (name, rest) = ended(name, rest, Sign::Assign)?;
    let (maker, rest) = match any_name(rest) {
        Ok(read) => read,
        Err(why) => return Err(given_up(name, why)),
    };
    match arguments(alloc, depth, false, rest) {
        Ok((arguments, rest)) => {
            ended(new_of(place, name, maker, arguments), rest, Sign::Semicolon)
        }
        Err(why) => Err(given_up((name, maker), why)),
    }
}

// What stands behind `return`.
fn leave(
    alloc: Global,
    depth: u32,
    place: u32,
    tokens: &[Token],
) -> Result<(Statement, &[Token]), Stop>
    ensures { MatchResult result
        (λ x. IsReadAll (Take sign.OpenParenthesis ∷ AnyName ∷ Read Ending ∷ Join Return ∷ []) depth (At place) tokens.now x.0 x.1.now)
        (λ why. IsStoppedAll (Take sign.OpenParenthesis ∷ AnyName ∷ Read Ending ∷ Join Return ∷ []) depth (At place) tokens.now why) }
{
    let Some((_, behind)) = behind_sign(tokens, Sign::OpenParenthesis) else {
        return Err(Stop::Syntax(tokens.len()));
    };
    let deeper = enter(depth, tokens.len())?;
    let (word, rest) = any_name(behind)?;
    if !begins(rest, Sign::OpenParenthesis) {
        let (word, rest) = ended(word, rest, Sign::CloseParenthesis)?;
        return ended(return_of(place, word), rest, Sign::Semicolon);
    }
    let (arguments, rest) = match arguments(alloc, deeper, false, rest) {
        Ok(read) => read,
        Err(why) => return Err(given_up(word, why)),
    };
    let (statement, rest) = ended(
        return_with(place, word, arguments),
        rest,
        Sign::CloseParenthesis,
    )?;
    ended(statement, rest, Sign::Semicolon)
}
