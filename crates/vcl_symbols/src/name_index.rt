// Where names stand in a list.
ghost use Rattle.std.specs.Prelude.{◌≡◌, ℕ, IfOk, map, position, length};
ghost use Rattle.std.specs.Str.{bytes_eq};
ghost use Rattle.vcl_symbols.specs.Names.{FindsFirst};

use std::alloc::{AllocError, Global};
use std::collections::BTreeMap;
use std::marker::Model;

/// A list of names, in which a name is found without a pass over it. Clauses see the list.
#[derive(Drop)]
pub struct NameIndex<'t> {
    names: Vec<&'t [u8]>,
    places: BTreeMap<&'t [u8], usize>,
}

impl<'t> Model for NameIndex<'t> {
    ghost use Rattle.std.specs.Prelude.{List, ℕ, map};
    ghost use Rattle.vcl_symbols.specs.Names.{FindsFirst};

    ghost Value = { List (List ℕ) };

    ghost view = { λ index. map (λ name. name.now) index.names.items };

    ghost invariant = { λ index. FindsFirst index.places (map (λ name. name.now) index.names.items) };
}

impl<'t> NameIndex<'t> {
    /// The index of these names. A name may stand there several times.
    pub fn of(alloc: Global, names: Vec<&'t [u8]>) -> Result<NameIndex<'t>, AllocError>
        ensures { IfOk result (λ index. index ≡ map (λ name. name.now) names.entry.items) }
    {
        let places = first_places(alloc, names.as_slice())?;
        Ok(NameIndex { names, places })
    }

    /// How many names there are.
    pub fn len(&self) -> usize
        ensures { result ≡ length self.now }
    {
        self.names.len()
    }

    /// The number of the first name that is equal to this one, counted from 0. It takes no memory.
    pub fn find(&self, name: &[u8]) -> Option<usize>
        ensures { result ≡ position (λ other. bytes_eq name.now other) self.now }
    {
        self.places.get(name).copied()
    }
}

// For each name the place of the first equal one.
fn first_places<'t>(
    alloc: Global,
    names: &[&'t [u8]],
) -> Result<BTreeMap<&'t [u8], usize>, AllocError>
    ensures { IfOk result (λ places. FindsFirst places (map (λ name. name.now) names.now)) }
{
    let mut places = BTreeMap::new(alloc);
    for (place, name) in names.iter().enumerate() {
        if !places.contains_key(*name) {
            places.insert(*name, place)?;
        }
    }
    Ok(places)
}
