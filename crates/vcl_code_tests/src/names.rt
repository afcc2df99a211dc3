// What names stand for.
use directors::DirectorKind;
use std::alloc::{AllocError, Global};
use vcl_code::{Callee, acl_of, builtin_of, callee_of, subroutine_of, word_of};
use vcl_symbols::{NameIndex, Symbol, SymbolTable};

/// Names of a text with one backend, origin, one subroutine, tidy, and one director, pool.
pub fn names(alloc: Global) -> Result<SymbolTable<'static>, AllocError> {
    let imports = NameIndex::of(alloc, Vec::new(alloc))?;
    let declared: [&'static [u8]; 3] = [b"origin", b"tidy", b"pool"];
    let names = NameIndex::of(alloc, Vec::from_array(alloc, declared)?)?;
    let symbols = [
        Symbol::Backend(0),
        Symbol::Subroutine(0),
        Symbol::Director(DirectorKind::Fallback, 0),
    ];
    let symbols = Vec::from_array(alloc, symbols)?;
    Ok(SymbolTable {
        imports,
        names,
        symbols,
        stored: &[],
    })
}

/// What a name stands for: a built-in function, a word of return, what is called, or the number of a subroutine and of an ACL.
pub fn name_shown(alloc: Global, word: &str, name: &str) -> Result<String, AllocError> {
    let name = name.as_bytes();
    match word {
        "builtin" => format!(in alloc; "{:?}", builtin_of(name)),
        "word" => format!(in alloc; "{:?}", word_of(name)),
        _ => name_in(alloc, word, name),
    }
}

fn name_in(alloc: Global, word: &str, name: &[u8]) -> Result<String, AllocError> {
    let names = names(alloc)?;
    if word == "callee" {
        return callee_shown(alloc, callee_of(&names, name));
    }
    let subroutine = subroutine_of(&names, name);
    let acl = acl_of(&names, name);
    format!(in alloc; "{subroutine:?} {acl:?}")
}

fn callee_shown(alloc: Global, callee: Callee) -> Result<String, AllocError> {
    match callee {
        Callee::Builtin(builtin) => format!(in alloc; "{builtin:?}"),
        Callee::Stored(number, _) => format!(in alloc; "stored {number}"),
        Callee::Director(number) => format!(in alloc; "director {number}"),
        Callee::Absent => format!(in alloc; "absent"),
    }
}
