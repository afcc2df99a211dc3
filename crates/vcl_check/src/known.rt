// What the names of a text stand for by what they are used for.
ghost use Rattle.std.specs.Prelude.{◌≡◌};
ghost use Rattle.vcl_check.specs.Known.{is_truth, of_variable, of_read_symbol, of_declared, of_read, of_object, of_method, stored_named, of_stored, value, takes_values, takes_behind_jar, written_of, value_given, function_of, function_at, is_available, of_function, of_maker, of_word, of_called, meaning_of};

use crate::form::Use;
use crate::seen::Meaning;
use directors::DirectorKind;
use vcl_language::{
    Function, Method, Module, NOTHING, Parameter, Scope, Slot, Takes, Variable, Word,
    function_named, maker_named, method_of, subroutine_named, variable_named, word_named,
};
use vcl_symbols::{Symbol, SymbolTable};
use vcl_tree::ends_in;
use vcl_values::Kind;
use vmod_host::{JarUse, Signature, Stored};

/// What a name stands for by what it is used for.
#[tactic(auto, unfolding(crate::specs::Known::meaning_of))]
pub fn meaning_of(tables: &SymbolTable<'_>, by: Use, name: &[u8]) -> Meaning
    ensures { result ≡ meaning_of tables.now by name.now }
{
    match by {
        Use::Read => of_read(tables, name, variable_named(name)),
        Use::Set => of_variable(variable_named(name)),
        Use::Append => of_variable(variable_named(name)),
        Use::Unset => of_variable(variable_named(name)),
        Use::Function => of_function(tables, name, function_named(name)),
        Use::Maker => of_maker(tables, maker_named(name)),
        Use::Word => of_word(word_named(name)),
        Use::Subroutine => of_called(tables.symbol_named(name)),
    }
}

fn of_read(tables: &SymbolTable<'_>, name: &[u8], variable: Option<Variable>) -> Meaning
    ensures { result ≡ of_read tables.now name.now variable }
{
    match variable {
        Some(variable) => Meaning::Variable(variable),
        None => {
            if is_truth(name) {
                Meaning::Truth
            } else {
                of_declared(tables, name)
            }
        }
    }
}

fn of_declared(tables: &SymbolTable<'_>, name: &[u8]) -> Meaning
    ensures { result ≡ of_declared tables.now name.now }
{
    of_read_symbol(tables.symbol_named(name), subroutine_named(name).is_some())
}

fn of_function(tables: &SymbolTable<'_>, name: &[u8], function: Option<Function>) -> Meaning
    ensures { result ≡ of_function tables.now name.now function }
{
    match function {
        Some(function) => {
            if is_available(tables, function.module) {
                Meaning::Function(function)
            } else {
                Meaning::Unknown
            }
        }
        None => of_stored(tables, name, stored_named(tables, name)),
    }
}

fn is_available(tables: &SymbolTable<'_>, origin: Module) -> bool
    ensures { result ≡ is_available tables.now origin }
{
    match origin {
        Module::Language => true,
        Module::Xkey => tables.is_imported(b"xkey"),
    }
}

fn of_stored(tables: &SymbolTable<'_>, name: &[u8], function: Option<Function>) -> Meaning
    ensures { result ≡ of_stored tables.now name.now function }
{
    match function {
        Some(function) => Meaning::Function(function),
        None => of_method(tables, name),
    }
}

// The stored function of this name.
fn stored_named(tables: &SymbolTable<'_>, name: &[u8]) -> Option<Function>
    ensures { result ≡ stored_named tables.now name.now }
{
    match tables.stored_of(name) {
        None => None,
        Some(number) => function_at(tables.stored, number),
    }
}

fn of_method(tables: &SymbolTable<'_>, name: &[u8]) -> Meaning
    ensures { result ≡ of_method tables.now name.now }
{
    if ends_in(b".add_backend", name) {
        let object = tables.object_named(b".add_backend", name);
        of_object(Method::AddBackend, object)
    } else {
        let object = tables.object_named(b".backend", name);
        of_object(Method::Backend, object)
    }
}

fn of_maker(tables: &SymbolTable<'_>, kind: Option<DirectorKind>) -> Meaning
    ensures { result ≡ of_maker tables.now kind }
{
    match kind {
        Some(kind) => {
            if tables.is_imported(b"directors") {
                Meaning::Maker(kind)
            } else {
                Meaning::Unknown
            }
        }
        None => Meaning::Unknown,
    }
}

fn function_at(stored: &[Stored], number: usize) -> Option<Function>
    ensures { result ≡ function_at stored.now number }
{
    match stored.get(number) {
        None => None,
        Some(entry) => function_of(&entry.signature),
    }
}

fn of_variable(variable: Option<Variable>) -> Meaning
    ensures { result ≡ of_variable variable }
{
    match variable {
        None => Meaning::Unknown,
        Some(variable) => Meaning::Variable(variable),
    }
}

fn of_read_symbol(symbol: Option<Symbol>, built_in: bool) -> Meaning
    ensures { result ≡ of_read_symbol symbol built_in }
{
    match symbol {
        Some(Symbol::Backend(_)) => Meaning::Backend,
        Some(Symbol::Acl(_)) => Meaning::Acl,
        Some(_) => Meaning::NoValue,
        None if built_in => Meaning::NoValue,
        None => Meaning::Unknown,
    }
}

fn of_word(word: Option<Word>) -> Meaning
    ensures { result ≡ of_word word }
{
    match word {
        None => Meaning::Unknown,
        Some(word) => Meaning::Word(word),
    }
}

fn of_called(symbol: Option<Symbol>) -> Meaning
    ensures { result ≡ of_called symbol }
{
    match symbol {
        Some(Symbol::Subroutine(_)) => Meaning::Subroutine,
        _ => Meaning::Unknown,
    }
}

fn of_object(method: Method, symbol: Option<Symbol>) -> Meaning
    ensures { result ≡ of_object method symbol }
{
    match symbol {
        Some(Symbol::Director(kind, _)) => Meaning::Function(method_of(kind, method)),
        Some(Symbol::UnknownObject) => Meaning::Method,
        _ => Meaning::Unknown,
    }
}

fn is_truth(name: &[u8]) -> bool
    ensures { result ≡ is_truth name.now }
{
    name == b"true".as_slice() || name == b"false".as_slice()
}

fn function_of(signature: &Signature) -> Option<Function>
    ensures { result ≡ function_of signature.now }
{
    let takes = written_of(signature.jar, signature.takes.as_slice())?;
    Some(Function {
        takes,
        gives: value_given(signature.jar, signature.gives),
        scope: Scope::Traffic,
        module: Module::Language,
    })
}

fn takes_values(kinds: &[Kind]) -> Option<Takes>
    ensures { result ≡ takes_values kinds.now }
{
    match kinds {
        [] => Some(NOTHING),
        [a] => Some([value(*a), Slot::Closed, Slot::Closed]),
        [a, b] => Some([value(*a), value(*b), Slot::Closed]),
        [a, b, c] => Some([value(*a), value(*b), value(*c)]),
        _ => None,
    }
}

// What a call writes of what a function takes.
fn written_of(jar: JarUse, kinds: &[Kind]) -> Option<Takes>
    ensures { result ≡ written_of jar kinds.now }
{
    match jar {
        JarUse::None => takes_values(kinds),
        JarUse::Asks | JarUse::Changes => takes_behind_jar(kinds),
    }
}

fn takes_behind_jar(kinds: &[Kind]) -> Option<Takes>
    ensures { result ≡ takes_behind_jar kinds.now }
{
    match kinds {
        [Kind::String] => Some(NOTHING),
        [Kind::String, a] => Some([value(*a), Slot::Closed, Slot::Closed]),
        [Kind::String, a, b] => Some([value(*a), value(*b), Slot::Closed]),
        _ => None,
    }
}

fn value_given(jar: JarUse, kind: Kind) -> Option<Kind>
    ensures { result ≡ value_given jar kind }
{
    match jar {
        JarUse::None | JarUse::Asks => Some(kind),
        JarUse::Changes => None,
    }
}

fn value(kind: Kind) -> Slot
    ensures { result ≡ value kind }
{
    Slot::Needed(Parameter::Value(kind))
}
