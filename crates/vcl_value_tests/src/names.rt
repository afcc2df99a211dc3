// Rows of the language's tables, by their names.
use directors::DirectorKind;
use std::alloc::{AllocError, Global};
use vcl_language::{
    Function, Method, Owner, attribute_named, function_named, has, is_module, is_reserved,
    maker_named, method_named, method_of, subroutine_named, variable_named, word_named,
};

/// What the table of this word has of the name.
pub fn name_shown(alloc: Global, word: &str, name: &str) -> Result<String, AllocError> {
    match word {
        "variable" => variable_shown(alloc, name),
        "function" => match function_named(name.as_bytes()) {
            Some(function) => function_shown(alloc, function),
            None => format!(in alloc; "no function"),
        },
        "asked" => asked_shown(alloc, name),
        "return" => word_shown(alloc, name),
        "attribute" => attribute_shown(alloc, name),
        _ => plain_shown(alloc, word, name.as_bytes()),
    }
}

// Its type, and where it is read, set, added to and unset.
fn variable_shown(alloc: Global, name: &str) -> Result<String, AllocError> {
    match variable_named(name.as_bytes()) {
        Some(variable) => {
            let kind = variable.kind;
            let read = variable.read;
            let set = variable.set;
            let append = variable.append;
            let unset = variable.unset;
            format!(in alloc; "{kind:?} {read:?} {set:?} {append:?} {unset:?}")
        }
        None => format!(in alloc; "no variable"),
    }
}

// What it takes and gives, where it stands, and its module.
fn function_shown(alloc: Global, function: Function) -> Result<String, AllocError> {
    let takes = function.takes;
    let gives = function.gives;
    let scope = function.scope;
    let module = function.module;
    format!(in alloc; "{takes:?} {gives:?} {scope:?} {module:?}")
}

// The method `backend` of a director.
fn asked_shown(alloc: Global, maker: &str) -> Result<String, AllocError> {
    let kind = maker_named(maker.as_bytes()).unwrap_or(DirectorKind::One);
    function_shown(alloc, method_of(kind, Method::Backend))
}

// Whether a word of return may stand in a subroutine, and whether it takes a time there.
fn word_shown(alloc: Global, row: &str) -> Result<String, AllocError> {
    let (name, subroutine) = row.split_once(' ').unwrap_or((row, ""));
    match (
        word_named(name.as_bytes()),
        subroutine_named(subroutine.as_bytes()),
    ) {
        (Some(word), Some(subroutine)) => {
            let plain = has(word.scope, subroutine);
            let timed = has(word.timed, subroutine);
            format!(in alloc; "{plain} {timed}")
        }
        _ => format!(in alloc; "no word"),
    }
}

fn attribute_shown(alloc: Global, row: &str) -> Result<String, AllocError> {
    let (owner, name) = row.split_once(' ').unwrap_or((row, ""));
    let owner = if owner == "backend" {
        Owner::Backend
    } else {
        Owner::Probe
    };
    let kind = attribute_named(owner, name.as_bytes());
    format!(in alloc; "{kind:?}")
}

fn plain_shown(alloc: Global, word: &str, name: &[u8]) -> Result<String, AllocError> {
    match word {
        "maker" => {
            let kind = maker_named(name);
            format!(in alloc; "{kind:?}")
        }
        "module" => {
            let is = is_module(name);
            format!(in alloc; "{is}")
        }
        "method" => {
            let method = method_named(name);
            format!(in alloc; "{method:?}")
        }
        "subroutine" => {
            let subroutine = subroutine_named(name);
            let reserved = is_reserved(name);
            format!(in alloc; "{subroutine:?} {reserved}")
        }
        _ => format!(in alloc; "no such row"),
    }
}
