// What names stand for in the numbered form.
ghost use Rattle.std.specs.Prelude.{◌≡◌};
ghost use Rattle.vcl_code.specs.Names.{NoTarget, target_of, read_of, of_target, acl_of, subroutine_of, director_of, callee_of, jar_at};
ghost use Rattle.vcl_code.specs.Sights.{target_seen, read_seen};

use crate::callees::{Builtin, builtin_of};
use vcl_context::{Message, Variable, field_of, variable_of};
use vcl_symbols::{Symbol, SymbolTable};
use vmod_host::{JarUse, Stored};

/// What may be set or unset by its name.
#[derive(Clone, Copy)]
pub enum Target<'n> {
    Variable(Variable),
    Field(Message, &'n [u8]),
    Absent,
}

/// What a name that is read stands for.
#[derive(Clone, Copy)]
pub enum Read<'n> {
    Target(Target<'n>),
    Truth(bool),
    Backend(usize),
    Absent,
}

/// What is called.
#[derive(Clone, Copy)]
pub enum Callee {
    Builtin(Builtin),
    /// A stored function by its place in the table, and what it has to do with the jar.
    Stored(usize, JarUse),
    /// `backend` of a director.
    Director(usize),
    Absent,
}

/// What is set or unset under a name.
#[tactic(auto, unfolding(crate::specs::Names::target_of))]
pub fn target_of(name: &[u8]) -> Target<'_>
    ensures { target_seen result ≡ target_of name.now }
{
    match variable_of(name) {
        Some(variable) => Target::Variable(variable),
        None => match field_of(name) {
            Some((message, field)) => Target::Field(message, field),
            None => Target::Absent,
        },
    }
}

/// What a name that is read stands for.
#[tactic(auto, unfolding(crate::specs::Names::read_of))]
pub fn read_of<'n>(names: &SymbolTable<'_>, name: &'n [u8]) -> Read<'n>
    ensures { read_seen result ≡ read_of names.now name.now }
{
    match target_of(name) {
        Target::Absent => unset_of(names, name),
        target => Read::Target(target),
    }
}

// A truth or a backend.
fn unset_of(names: &SymbolTable<'_>, name: &[u8]) -> Read<'static>
    ensures { read_seen result ≡ of_target names.now name.now NoTarget }
{
    if name == b"true".as_slice() {
        Read::Truth(true)
    } else if name == b"false".as_slice() {
        Read::Truth(false)
    } else {
        match names.symbol_named(name) {
            Some(Symbol::Backend(number)) => Read::Backend(number),
            _ => Read::Absent,
        }
    }
}

/// The number of the ACL of this name.
#[tactic(auto, unfolding(crate::specs::Names::acl_of))]
pub fn acl_of(names: &SymbolTable<'_>, name: &[u8]) -> Option<usize>
    ensures { result ≡ acl_of names.now name.now }
{
    match names.symbol_named(name) {
        Some(Symbol::Acl(number)) => Some(number),
        _ => None,
    }
}

/// The number of the text's own subroutine of this name.
#[tactic(auto, unfolding(crate::specs::Names::subroutine_of))]
pub fn subroutine_of(names: &SymbolTable<'_>, name: &[u8]) -> Option<usize>
    ensures { result ≡ subroutine_of names.now name.now }
{
    match names.symbol_named(name) {
        Some(Symbol::Subroutine(number)) => Some(number),
        _ => None,
    }
}

/// What is called by this name.
#[tactic(auto, unfolding(crate::specs::Names::callee_of))]
pub fn callee_of(names: &SymbolTable<'_>, name: &[u8]) -> Callee
    ensures { result ≡ callee_of names.now name.now }
{
    match builtin_of(name) {
        Some(builtin) => Callee::Builtin(builtin),
        None => match names.stored_of(name) {
            Some(number) => Callee::Stored(number, jar_at(names.stored, number)),
            None => director_of(names, name),
        },
    }
}

fn jar_at(stored: &[Stored], number: usize) -> JarUse
    ensures { result ≡ jar_at stored.now number }
{
    match stored.get(number) {
        Some(entry) => entry.signature.jar,
        None => JarUse::None,
    }
}

fn director_of(names: &SymbolTable<'_>, name: &[u8]) -> Callee
    ensures { result ≡ director_of names.now name.now }
{
    match names.object_named(b".backend", name) {
        Some(Symbol::Director(_, number)) => Callee::Director(number),
        _ => Callee::Absent,
    }
}
