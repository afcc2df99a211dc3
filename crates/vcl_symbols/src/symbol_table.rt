// What the names of a text stand for, with their numbers.
ghost use Rattle.std.specs.Prelude.{◌≡◌, ◌&&◌, not, option_and_then, position, slice_get};
ghost use Rattle.std.specs.Str.{bytes_eq};
ghost use Rattle.vmod_host.specs.Stored.{is_named};
ghost use Rattle.vcl_symbols.specs.Known.{symbol_named, is_imported, stored_in, stored_of, without, object_named};

use crate::name_index::NameIndex;
use directors::DirectorKind;
use std::marker::Model;
use vcl_language::is_module;
use vcl_tree::{behind, dot_in, ends_in};
use vmod_host::{Stored, stored_number};

/// What a declared name stands for. A number is the place of the name among those of its sort, from 0.
#[derive(Clone, Copy)]
pub enum Symbol {
    Backend(usize),
    Probe,
    Acl(usize),
    /// An object that a known maker makes: a director of this kind.
    Director(DirectorKind, usize),
    /// An object whose maker isn't known.
    UnknownObject,
    /// A name of `new` in a subroutine other than vcl_init: it is taken, and there is no object.
    NoObject,
    /// A subroutine of the text's own.
    Subroutine(usize),
}

/// The modules that a text imports; the names that it declares, in its order, each with what it stands for; and the
/// stored functions.
#[derive(Drop)]
pub struct SymbolTable<'t> {
    pub imports: NameIndex<'t>,
    pub names: NameIndex<'t>,
    pub symbols: Vec<Symbol>,
    pub stored: &'t [Stored],
}

impl<'t> Model for SymbolTable<'t> {
    ghost use Rattle.vcl_symbols.specs.Known.{Known};

    ghost Value = { Known };

    ghost view = { λ t. record { imports = t.imports; names = t.names; symbols = t.symbols.items; stored = t.stored.now } };
}

impl<'t> SymbolTable<'t> {
    /// What is first declared under a name.
    pub fn symbol_named(&self, name: &[u8]) -> Option<Symbol>
        ensures { result ≡ symbol_named self.now name.now }
    {
        symbol_in(&self.names, self.symbols.as_slice(), name)
    }

    /// Whether a module is imported.
    pub fn is_imported(&self, name: &[u8]) -> bool
        ensures { result ≡ is_imported self.now name.now }
    {
        self.imports.find(name).is_some()
    }

    /// The object of a method whose name ends so: what stands before the ending.
    pub fn object_named(&self, ending: &[u8], name: &[u8]) -> Option<Symbol>
        ensures { result ≡ object_named self.now ending.now name.now }
    {
        if ends_in(ending, name) {
            self.symbol_named(without(ending, name))
        } else {
            None
        }
    }

    /// The place in the table of stored functions of the one that is called by this name: its module, which is imported
    /// and none of the language's own, a dot, and its name.
    pub fn stored_of(&self, name: &[u8]) -> Option<usize>
        ensures { result ≡ stored_of self.now name.now }
    {
        match dot_in(name) {
            None => None,
            Some(dot) => {
                let own = behind(name, dot);
                self.stored_in(&name[..dot], own)
            }
        }
    }

    fn stored_in(&self, origin: &[u8], own: &[u8]) -> Option<usize>
        ensures { result ≡ stored_in self.now origin.now own.now }
    {
        if self.is_imported(origin) && !is_module(origin) {
            stored_number(self.stored, origin, own)
        } else {
            None
        }
    }
}

fn symbol_in(names: &NameIndex<'_>, symbols: &[Symbol], name: &[u8]) -> Option<Symbol>
    ensures { result ≡ option_and_then (λ k. slice_get symbols.now k) (position (λ other. bytes_eq name.now other) names.now) }
{
    match names.find(name) {
        None => None,
        Some(number) => symbols.get(number).copied(),
    }
}

// A name without its ending.
fn without<'n>(ending: &[u8], name: &'n [u8]) -> &'n [u8]
    ensures { result.now ≡ without ending.now name.now }
{
    let front = name.len().saturating_sub(ending.len());
    &name[..front]
}
