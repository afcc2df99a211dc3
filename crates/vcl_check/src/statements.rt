// What is told of statements.
ghost use Rattle.std.specs.Prelude.{◌≡◌};
ghost use Rattle.vcl_tree.specs.StatementView.{name_of};
ghost use Rattle.vcl_tree.specs.Phrase.{Phrase, At, Node, Bound, Called, list_of};
ghost use Rattle.vcl_check.specs.Least.{faultless, tied, told_of};
ghost use Rattle.vcl_check.specs.Roles as role;
ghost use Rattle.vcl_check.specs.Views.{at_place};

use crate::expressions::{arguments_of, expression};
use crate::form::{Form, Use};
use crate::seen::Told;
use crate::told::{faultless, tied, told_name};
use crate::views::at_place;
use vcl_language::Subroutine;
use vcl_symbols::SymbolTable;
use vcl_tree::{Action, Block, Branch, Expression, Name, Statement};

/// What is told of a block of statements, in the subroutines from which it is reached.
#[cycle(statement)]
pub fn block(tables: &SymbolTable<'_>, roots: &[Subroutine], b: &Block) -> Told
    ensures { result ≡ told_of tables.now roots.now role.Block b.now }
{
    let mut told = faultless(at_place(0));
    'statements: for one in &b.statements {
        told = tied(roots, Form::Apart, told, statement(tables, roots, one));
    }
    told
}

#[cycle(statement)]
fn statement(tables: &SymbolTable<'_>, roots: &[Subroutine], s: &Statement) -> Told
    ensures { result ≡ told_of tables.now roots.now role.Statement s.now }
{
    match &s.action {
        Action::Set(place, name, value) => {
            let given = assignment(tables, roots, Use::Set, name, value);
            tied(roots, Form::Set, faultless(at_place(*place)), given)
        }
        Action::Append(place, name, value) => {
            let given = assignment(tables, roots, Use::Append, name, value);
            tied(roots, Form::Append, faultless(at_place(*place)), given)
        }
        Action::Unset(place, name) => ordinary(tables, roots, Use::Unset, *place, name),
        Action::Call(place, name) => ordinary(tables, roots, Use::Subroutine, *place, name),
        Action::New(place, name, maker, arguments) => {
            let made = object(tables, roots, name, maker, arguments);
            tied(roots, Form::New, faultless(at_place(*place)), made)
        }
        Action::If(place, first, others, otherwise) => {
            let taken = branch(tables, roots, first);
            let mut told = tied(roots, Form::Ordinary, faultless(at_place(*place)), taken);
            'branches: for other in others {
                told = tied(roots, Form::Apart, told, branch(tables, roots, other));
            }
            match otherwise {
                None => told,
                Some(last) => tied(roots, Form::Apart, told, block(tables, roots, last)),
            }
        }
        Action::Return(place, word) => {
            let told = named(tables, roots, Use::Word, word);
            tied(roots, Form::Return, faultless(at_place(*place)), told)
        }
        Action::ReturnWith(place, word, arguments) => {
            let told = applied(tables, roots, Use::Word, word, arguments);
            tied(roots, Form::Return, faultless(at_place(*place)), told)
        }
        Action::Run(name, arguments) => run(tables, roots, name, arguments),
    }
}

#[cycle(statement)]
fn branch(tables: &SymbolTable<'_>, roots: &[Subroutine], b: &Branch) -> Told
    ensures { result ≡ told_of tables.now roots.now role.Branch b.now }
{
    let condition = expression(tables, roots, &b.condition);
    tied(
        roots,
        Form::Condition,
        condition,
        block(tables, roots, &b.block),
    )
}

fn named(tables: &SymbolTable<'_>, roots: &[Subroutine], by: Use, name: &Name) -> Told
    ensures { result ≡ told_of tables.now roots.now (role.Name by) (name_of name.now) }
{
    told_name(tables, roots, by, name.place, name.text.bytes())
}

fn assignment(
    tables: &SymbolTable<'_>,
    roots: &[Subroutine],
    by: Use,
    name: &Name,
    value: &Expression,
) -> Told
    ensures { result ≡ told_of tables.now roots.now (role.Assignment by) (Node Bound (name_of name.now) value.now) }
{
    tied(
        roots,
        Form::Assignment,
        named(tables, roots, by, name),
        expression(tables, roots, value),
    )
}

// A statement of a name that stands in traffic alone.
fn ordinary(
    tables: &SymbolTable<'_>,
    roots: &[Subroutine],
    by: Use,
    place: u32,
    name: &Name,
) -> Told
    ensures { result ≡ tied roots.now Form.Ordinary (faultless (at_place place)) (told_of tables.now roots.now (role.Name by) (name_of name.now)) }
{
    let told = named(tables, roots, by, name);
    tied(roots, Form::Ordinary, faultless(at_place(place)), told)
}

// A word or a maker with its arguments.
fn applied(
    tables: &SymbolTable<'_>,
    roots: &[Subroutine],
    by: Use,
    name: &Name,
    arguments: &[Expression],
) -> Told
    ensures { result ≡ tied roots.now Form.Applied (told_of tables.now roots.now (role.Name by) (name_of name.now)) (told_of tables.now roots.now role.Arguments (list_of arguments.now)) }
{
    let told = named(tables, roots, by, name);
    tied(
        roots,
        Form::Applied,
        told,
        arguments_of(tables, roots, arguments),
    )
}

// An object's name, and its maker with arguments.
fn object(
    tables: &SymbolTable<'_>,
    roots: &[Subroutine],
    name: &Name,
    maker: &Name,
    arguments: &[Expression],
) -> Told
    ensures { result ≡ told_of tables.now roots.now role.Object (Node Bound (name_of name.now) (Node Called (name_of maker.now) (list_of arguments.now))) }
{
    let made = applied(tables, roots, Use::Maker, maker, arguments);
    tied(roots, Form::Object, faultless(at_place(name.place)), made)
}

// A function that is called as a statement.
fn run(
    tables: &SymbolTable<'_>,
    roots: &[Subroutine],
    name: &Name,
    arguments: &[Expression],
) -> Told
    ensures { result ≡ told_of tables.now roots.now role.Statement (Node Called (name_of name.now) (list_of arguments.now)) }
{
    let function = named(tables, roots, Use::Function, name);
    tied(
        roots,
        Form::Call,
        function,
        arguments_of(tables, roots, arguments),
    )
}
