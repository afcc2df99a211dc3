// A stored function with its code.
ghost use Rattle.std.specs.Prelude.{◌≡◌, map, Ok, IfOk};
ghost use Rattle.vcl_values.specs.Values.{kind_of};
ghost use Rattle.vmod_host.specs.Meanings.{IsMeaning};

use crate::signature::Signature;
use std::alloc::{AllocError, Global};
use vcl_values::Value;

/// A stored function: its tag, its signature, and the code that is called with the tag and with arguments of the
/// signature's types. It keeps that the code may be called with these, and that what it answers is the meaning of
/// the tag.
#[derive(Drop)]
pub struct Vmod {
    pub tag: u32,
    pub signature: Signature,
    pub call: fn(u32, Global, &[Value]) -> Result<Value, AllocError>,
    ghost callable: { (alloc : _) (arguments : _) → map kind_of arguments.now ≡ signature.takes → pre call tag alloc arguments },
    ghost keeps: { (alloc : _) (arguments : _) (answer : _) → map kind_of arguments.now ≡ signature.takes → post call tag alloc arguments (Ok answer) → IsMeaning tag signature.gives arguments.now answer },
}

impl Vmod {
    /// What the function answers on these arguments: the meaning of its tag, of the type that it gives.
    pub fn answer(&self, alloc: Global, arguments: &[Value]) -> Result<Value, AllocError>
        requires { map kind_of arguments.now ≡ self.now.signature.takes }
        ensures { IfOk result (IsMeaning self.now.tag self.now.signature.gives arguments.now) }
    {
        (self.call)(self.tag, alloc, arguments)
    }

    /// The same function again; its texts are shared.
    pub fn copy(&self, alloc: Global) -> Result<Vmod, AllocError>
        ensures tag { IfOk result (λ copy. copy.tag ≡ self.now.tag) }
        ensures signature { IfOk result (λ copy. copy.signature ≡ self.now.signature) }
    {
        Ok(Vmod {
            tag: self.tag,
            signature: self.signature.copy(alloc)?,
            call: self.call,
        })
    }
}
