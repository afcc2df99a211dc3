// A jar of cookies.
ghost use Rattle.std.specs.Prelude.{◌≡◌, ◌<◌, ◌∷◌, ◌++◌, [], filter, is_some, length, not, position, IfOk, IfSome, OnOk, OnErr, option_map};
ghost use Rattle.std.specs.Str.{bytes_eq, byte};
ghost use Rattle.indexmap.specs.IndexMap.{insert_entry};
ghost use Rattle.indexmap.specs.IndexSet.{contains};
ghost use Rattle.vmod_host.specs.Jar.{field_of, is_equals as equals, parsed, value_in, with_cookie, with_part, without_name};

use indexmap::{IndexMap, IndexSet};
use std::alloc::{AllocError, Global};
use std::marker::Model;
use units::{Text, trim_blanks};

/// Cookies in order, no two of one name. Clauses see the list of the names with their values.
#[derive(Drop)]
pub struct Jar {
    pub(crate) cookies: IndexMap<Text, Text>,
}

impl Model for Jar {
    ghost use Rattle.std.specs.Str.{bytes_eq};
    ghost use Rattle.indexmap.specs.IndexMap.{IsUnique};
    ghost use Rattle.vmod_host.specs.Jar.{Cookies};

    ghost Value = { Cookies };

    ghost view = { λ jar. jar.cookies.entries };

    ghost invariant = { λ jar. IsUnique bytes_eq jar.cookies };
}

impl Jar {
    /// The empty jar. It takes no memory.
    pub fn new(alloc: Global) -> Jar
        ensures { result ≡ [] }
    {
        Jar {
            cookies: IndexMap::new(alloc),
        }
    }

    /// The jar of a text as a Cookie field has it: parts between semicolons, each a name, `=` and a value.
    pub fn parse(alloc: Global, text: &[u8]) -> Result<Jar, AllocError>
        ensures { IfOk result (λ jar. jar ≡ parsed text.now) }
    {
        let mut jar = Jar::new(alloc);
        for part in text.split(|sign| *sign == b';') {
            jar.set_part(alloc, trim_blanks(part))?;
        }
        Ok(jar)
    }

    fn set_part(&mut self, alloc: Global, part: &[u8]) -> Result<(), AllocError>
        ensures { OnOk result (self.new ≡ with_part self.old part.now) }
    {
        let Some(place) = equals_place(part) else {
            return Ok(());
        };
        let name = Text::of(alloc, &part[..place])?;
        let value = Text::of(alloc, &part[place + 1..])?;
        self.set(name, value)
    }

    /// Gives a name its value: in its place, where it is there, and else at the end. The empty name changes nothing.
    pub fn set(&mut self, name: Text, value: Text) -> Result<(), AllocError>
        ensures ok { OnOk result (self.new ≡ with_cookie self.old name value) }
        ensures err { OnErr result (self.new ≡ self.old) }
    {
        if name.bytes().is_empty() {
            return Ok(());
        }
        self.put(name, value)
    }

    // The same, also for the empty name.
    pub(crate) fn put(&mut self, name: Text, value: Text) -> Result<(), AllocError>
        ensures ok { OnOk result (self.new ≡ insert_entry bytes_eq self.old name value) }
        ensures err { OnErr result (self.new ≡ self.old) }
    {
        self.cookies.insert(name, value)?;
        Ok(())
    }

    /// The value of a name that is there.
    pub fn get(&self, name: &Text) -> Option<&Text>
        ensures { option_map (λ value. value.now) result ≡ value_in self.now name.now }
    {
        self.cookies.get(name)
    }

    /// Whether a cookie of this name is there.
    pub fn has(&self, name: &Text) -> bool
        ensures { result ≡ is_some (value_in self.now name.now) }
    {
        self.cookies.contains_key(name)
    }

    /// Takes the cookie of this name away, where it is there.
    pub fn delete(&mut self, name: &[u8])
        ensures { self.new ≡ without_name self.old name.now }
    {
        self.cookies.retain(|other, _| other.bytes() != name);
    }

    /// Leaves the cookies alone whose names are among these.
    pub(crate) fn keep(&mut self, names: &IndexSet<Text>)
        ensures { self.new ≡ filter (λ cookie. contains bytes_eq names.now cookie.0) self.old }
    {
        self.cookies.retain(|name, _| names.contains(name));
    }

    /// Takes the cookies away whose names are among these.
    pub(crate) fn remove(&mut self, names: &IndexSet<Text>)
        ensures { self.new ≡ filter (λ cookie. not (contains bytes_eq names.now cookie.0)) self.old }
    {
        self.cookies.retain(|name, _| !names.contains(name));
    }

    /// The jar as a Cookie field has it.
    pub fn field(&self, alloc: Global) -> Result<Text, AllocError>
        ensures { IfOk result (λ text. text ≡ field_of self.now) }
    {
        let mut field = Vec::new(alloc);
        for (name, value) in &self.cookies {
            if !field.is_empty() {
                field.extend_from_slice(b"; ")?;
            }
            push_cookie(&mut field, name.bytes(), value.bytes())?;
        }
        Text::from_vec(field)
    }
}

// The place of the first `=`.
fn equals_place(part: &[u8]) -> Option<usize>
    ensures place { result ≡ position equals part.now }
    ensures within { IfSome result (λ place. place < length part.now) }
{
    part.iter().position(|sign| is_equals(*sign))
}

fn is_equals(sign: u8) -> bool
    ensures { result ≡ equals sign }
{
    sign == b'='
}

// Puts a name, `=` and its value at the end.
fn push_cookie(field: &mut Vec<u8>, name: &[u8], value: &[u8]) -> Result<(), AllocError>
    ensures { OnOk result (field.new.items ≡ field.old.items ++ (name.now ++ byte "=" ∷ value.now)) }
{
    field.extend_from_slice(name)?;
    field.push(b'=')?;
    field.extend_from_slice(value)
}
