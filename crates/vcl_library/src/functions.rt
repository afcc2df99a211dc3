// The stored functions that the program has.
ghost use Rattle.std.specs.Prelude.{◌≡◌, ℕ, map, Ok, IfOk};
ghost use Rattle.vcl_values.specs.Values.{kind_of};
ghost use Rattle.vmod_host.specs.Stored.{entry_of};
ghost use Rattle.vcl_library.specs.Functions as due;
ghost use Rattle.vcl_library.specs.Functions.{IsAnswer, IsPassed, std_functions};

use std::alloc::{AllocError, Global};
use vcl_values::{Kind, Value};
use vmod_host::{
    CLEAN, DELETE, FILTER, GET, GET_STRING, INTEGER, ISSET, JarUse, KEEP, PARSE, SET, STRLEN,
    Signature, Stored, TOLOWER, TOUPPER, Vmod, VmodTable,
};

/// The signatures of the functions of the module `std`.
#[derive(Drop)]
pub struct StdSignatures {
    pub tolower: Signature,
    pub toupper: Signature,
    pub integer: Signature,
    pub strlen: Signature,
}

/// The signatures of the functions of the module `cookie` that make a jar anew or give a cookie its value.
#[derive(Drop)]
pub struct JarSignatures {
    pub parse: Signature,
    pub set: Signature,
    pub clean: Signature,
}

/// Those of the functions that choose among the cookies of a jar.
#[derive(Drop)]
pub struct ChoiceSignatures {
    pub delete: Signature,
    pub keep: Signature,
    pub filter: Signature,
}

/// Those of the functions that ask a jar.
#[derive(Drop)]
pub struct LookSignatures {
    pub get: Signature,
    pub isset: Signature,
    pub get_string: Signature,
}

fn std_signature(
    alloc: Global,
    name: &[u8],
    takes: &[Kind],
    gives: Kind,
) -> Result<Signature, AllocError>
    ensures { IfOk result (λ signature. signature ≡ due.std_signature name.now takes.now gives) }
{
    Signature::of(alloc, b"std", name, takes, gives)
}

fn cookie_signature(
    alloc: Global,
    jar: JarUse,
    name: &[u8],
    takes: &[Kind],
    gives: Kind,
) -> Result<Signature, AllocError>
    ensures { IfOk result (λ signature. signature ≡ due.cookie_signature jar name.now takes.now gives) }
{
    Signature::with_jar(alloc, jar, b"cookie", name, takes, gives)
}

fn std_signatures(alloc: Global) -> Result<StdSignatures, AllocError>
    ensures { IfOk result (λ signatures. signatures ≡ due.std_signatures) }
{
    let text = [Kind::String];
    Ok(StdSignatures {
        tolower: std_signature(alloc, b"tolower", &text, Kind::String)?,
        toupper: std_signature(alloc, b"toupper", &text, Kind::String)?,
        integer: std_signature(alloc, b"integer", &[Kind::String, Kind::Int], Kind::Int)?,
        strlen: std_signature(alloc, b"strlen", &text, Kind::Int)?,
    })
}

fn jar_signatures(alloc: Global) -> Result<JarSignatures, AllocError>
    ensures { IfOk result (λ signatures. signatures ≡ due.jar_signatures) }
{
    let text = [Kind::String];
    let texts = [Kind::String, Kind::String];
    let nothing: [Kind; 0] = [];
    Ok(JarSignatures {
        parse: cookie_signature(alloc, JarUse::Changes, b"parse", &text, Kind::String)?,
        set: cookie_signature(alloc, JarUse::Changes, b"set", &texts, Kind::String)?,
        clean: cookie_signature(alloc, JarUse::Changes, b"clean", &nothing, Kind::String)?,
    })
}

fn choice_signatures(alloc: Global) -> Result<ChoiceSignatures, AllocError>
    ensures { IfOk result (λ signatures. signatures ≡ due.choice_signatures) }
{
    let text = [Kind::String];
    Ok(ChoiceSignatures {
        delete: cookie_signature(alloc, JarUse::Changes, b"delete", &text, Kind::String)?,
        keep: cookie_signature(alloc, JarUse::Changes, b"keep", &text, Kind::String)?,
        filter: cookie_signature(alloc, JarUse::Changes, b"filter", &text, Kind::String)?,
    })
}

fn look_signatures(alloc: Global) -> Result<LookSignatures, AllocError>
    ensures { IfOk result (λ signatures. signatures ≡ due.look_signatures) }
{
    let text = [Kind::String];
    let nothing: [Kind; 0] = [];
    Ok(LookSignatures {
        get: cookie_signature(alloc, JarUse::Asks, b"get", &text, Kind::String)?,
        isset: cookie_signature(alloc, JarUse::Asks, b"isset", &text, Kind::Bool)?,
        get_string: cookie_signature(alloc, JarUse::Asks, b"get_string", &nothing, Kind::String)?,
    })
}

fn entry(tag: u32, signature: Signature) -> Stored
    ensures { result ≡ entry_of tag signature }
{
    Stored { tag, signature }
}

// The functions of the modules `std` and `cookie`, without their code.
fn std_entries(alloc: Global) -> Result<Vec<Stored>, AllocError>
    ensures { IfOk result (λ list. list.items ≡ std_functions) }
{
    let plain = std_signatures(alloc)?;
    let jars = jar_signatures(alloc)?;
    let choices = choice_signatures(alloc)?;
    let looks = look_signatures(alloc)?;
    let list = [
        entry(TOLOWER, plain.tolower),
        entry(TOUPPER, plain.toupper),
        entry(INTEGER, plain.integer),
        entry(STRLEN, plain.strlen),
        entry(PARSE, jars.parse),
        entry(SET, jars.set),
        entry(GET, looks.get),
        entry(ISSET, looks.isset),
        entry(DELETE, choices.delete),
        entry(KEEP, choices.keep),
        entry(FILTER, choices.filter),
        entry(CLEAN, jars.clean),
        entry(GET_STRING, looks.get_string),
    ];
    Ok(Vec::from_array(alloc, list)?)
}

/// The table of the functions of the modules `std` and `cookie`. Their code is passed, as `std_answer`, since a function that
/// takes a code of its own can't hand it out.
pub fn std_vmods(
    alloc: Global,
    call: fn(u32, Global, &[Value]) -> Result<Value, AllocError>,
) -> Result<VmodTable, AllocError>
    requires callable { (tag : ℕ) (memory : _) (arguments : _) → IsPassed tag (map kind_of arguments.now) → pre call tag memory arguments }
    requires keeps { (tag : ℕ) (memory : _) (arguments : _) (answer : _) → IsPassed tag (map kind_of arguments.now) → post call tag memory arguments (Ok answer) → IsAnswer tag arguments.now answer }
    ensures { IfOk result (λ table. table.stored ≡ std_functions) }
{
    let entries = std_entries(alloc)?;
    let mut list = Vec::new(alloc);
    for stored in entries.as_slice() {
        let signature = stored.signature.copy(alloc)?;
        list.push(Vmod {
            tag: stored.tag,
            signature,
            call,
        })?;
    }
    // Their tags differ, so that memory alone can be wanting.
    match VmodTable::of(alloc, list) {
        Ok(vmods) => Ok(vmods),
        Err(_) => Err(AllocError),
    }
}
