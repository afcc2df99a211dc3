// The programs of texts, and the built-in text.
use std::alloc::{AllocError, Global};
use units::Text;
use vcl_program::Compiled;
use vcl_store::{BUILT_IN, checked, program_of};
use vcl_tree::VclError;
use vmod_host::VmodTable;

/// What the program of a text has; or the number and the place of the refusal.
pub fn program_shown(alloc: Global, vmods: &VmodTable, row: &str) -> Result<String, AllocError> {
    let text = Text::of(alloc, row.as_bytes())?;
    match program_of(alloc, &text, vmods) {
        Ok(compiled) => parts(alloc, &compiled),
        Err(error) => refusal(alloc, error),
    }
}

/// What a check of the built-in text by itself says.
pub fn built_in_shown(alloc: Global, vmods: &VmodTable) -> Result<String, AllocError> {
    let text = Text::of(alloc, BUILT_IN)?;
    match checked(alloc, &text, vmods) {
        Ok(_) => format!(in alloc; "sound"),
        Err(error) => refusal(alloc, error),
    }
}

fn parts(alloc: Global, compiled: &Compiled) -> Result<String, AllocError> {
    let items = compiled.program.tree.items.as_slice().len();
    let backends = compiled.code.backends.as_slice().len();
    let directors = compiled.code.directors.as_slice().len();
    format!(in alloc; "items {items}, backends {backends}, directors {directors}")
}

fn refusal(alloc: Global, error: VclError) -> Result<String, AllocError> {
    match error {
        VclError::NoMemory => Err(AllocError),
        VclError::Refused { kind, place } => {
            let number = kind.number();
            format!(in alloc; "{number} at {place}")
        }
    }
}
