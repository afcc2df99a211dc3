// What a VCL text sees of a stored function.
ghost use Rattle.std.specs.Prelude.{◌≡◌, ◌∷◌, IfOk, position};
ghost use Rattle.vmod_host.specs.Stored.{is_named, passed};

use std::alloc::{AllocError, Global};
use units::{Sequence, Text};
use vcl_values::Kind;

/// What a function has to do with the jar of cookies of its round or its fetch.
#[derive(Clone, Copy, Debug, PartialEq, Eq)]
pub enum JarUse {
    None,
    /// It gets the jar's text before its other arguments.
    Asks,
    /// It gets the jar's text so too, and its answer is the jar's text from then on.
    Changes,
}

/// The module and the name of a function, the types of its arguments and that of its answer. Where it has a jar, the jar's
/// STRING is the first of its arguments, which no call writes.
#[derive(Drop)]
pub struct Signature {
    pub module: Text,
    pub name: Text,
    pub takes: Sequence<Kind>,
    pub gives: Kind,
    pub jar: JarUse,
}

/// A stored function without its code.
#[derive(Drop)]
pub struct Stored {
    pub tag: u32,
    pub signature: Signature,
}

impl Signature {
    /// The signature of a function that has no jar.
    pub fn of(
        alloc: Global,
        module_name: &[u8],
        name: &[u8],
        takes: &[Kind],
        gives: Kind,
    ) -> Result<Signature, AllocError>
        ensures module { IfOk result (λ signature. signature.module ≡ module_name.now) }
        ensures name { IfOk result (λ signature. signature.name ≡ name.now) }
        ensures takes { IfOk result (λ signature. signature.takes ≡ takes.now) }
        ensures gives { IfOk result (λ signature. signature.gives ≡ gives) }
        ensures jar { IfOk result (λ signature. signature.jar ≡ JarUse.None) }
    {
        Signature::with_jar(alloc, JarUse::None, module_name, name, takes, gives)
    }

    /// The signature of a function, with the arguments that its calls write.
    pub fn with_jar(
        alloc: Global,
        jar: JarUse,
        module_name: &[u8],
        name: &[u8],
        takes: &[Kind],
        gives: Kind,
    ) -> Result<Signature, AllocError>
        ensures module { IfOk result (λ signature. signature.module ≡ module_name.now) }
        ensures name { IfOk result (λ signature. signature.name ≡ name.now) }
        ensures takes { IfOk result (λ signature. signature.takes ≡ passed jar takes.now) }
        ensures gives { IfOk result (λ signature. signature.gives ≡ gives) }
        ensures jar { IfOk result (λ signature. signature.jar ≡ jar) }
    {
        Ok(Signature {
            module: Text::of(alloc, module_name)?,
            name: Text::of(alloc, name)?,
            takes: passed(alloc, jar, takes)?,
            gives,
            jar,
        })
    }

    /// The same signature again; its texts are shared.
    pub fn copy(&self, alloc: Global) -> Result<Signature, AllocError>
        ensures { IfOk result (λ copy. copy ≡ self.now) }
    {
        Ok(Signature {
            module: self.module.copy()?,
            name: self.name.copy()?,
            takes: Sequence::from_vec(self.takes.as_slice().to_vec(alloc)?),
            gives: self.gives,
            jar: self.jar,
        })
    }

    /// Whether it is that of this function of this module; case tells names apart.
    pub fn is_named(&self, module_name: &[u8], name: &[u8]) -> bool
        ensures { result ≡ is_named module_name.now name.now self.now }
    {
        self.module.bytes() == module_name && self.name.bytes() == name
    }
}

// What is passed to a function whose calls write these arguments.
fn passed(alloc: Global, jar: JarUse, takes: &[Kind]) -> Result<Sequence<Kind>, AllocError>
    ensures { IfOk result (λ kinds. kinds ≡ passed jar takes.now) }
{
    match jar {
        JarUse::None => Ok(Sequence::from_vec(takes.to_vec(alloc)?)),
        JarUse::Asks | JarUse::Changes => behind_jar(alloc, takes),
    }
}

fn behind_jar(alloc: Global, takes: &[Kind]) -> Result<Sequence<Kind>, AllocError>
    ensures { IfOk result (λ kinds. kinds ≡ Kind.String ∷ takes.now) }
{
    let mut kinds = Vec::new(alloc);
    kinds.push(Kind::String)?;
    kinds.extend_from_slice(takes)?;
    Ok(Sequence::from_vec(kinds))
}

/// The number of the function of that module and name.
pub fn stored_number(stored: &[Stored], module_name: &[u8], name: &[u8]) -> Option<usize>
    ensures { result ≡ position (λ entry. is_named module_name.now name.now entry.signature) stored.now }
{
    stored
        .iter()
        .position(|entry| entry.signature.is_named(module_name, name))
}
