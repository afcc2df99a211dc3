// What declarations take a name for, and where a backend of them is.
ghost use Rattle.std.specs.Prelude.{◌≡◌, []};

use directors::{DirectorKind, Target};
use row_settings::push_bytes;
use std::alloc::{AllocError, Global};
use units::{Shared, Text};
use vcl_library::backend_of;
use vcl_runner::{Executable, Run};
use vcl_runs::Runner;
use vcl_soundness::{backends_are_there, program_never_stuck};
use vcl_store::program_of;
use vcl_values::Backend;
use vmod_host::VmodTable;

/// The kind, the name and the members of the target of a name, or with `-` of what is used where nothing was chosen.
pub fn target_shown(alloc: Global, row: &str) -> Result<String, AllocError> {
    let (name, declarations) = row.split_once(' ').unwrap_or((row, ""));
    match VmodTable::of(alloc, Vec::new(alloc)) {
        Ok(functions) => shown(alloc, &Shared::new(alloc, functions)?, name, declarations),
        Err(_) => Err(AllocError),
    }
}

fn shown(
    alloc: Global,
    functions: &Shared<VmodTable>,
    name: &str,
    declarations: &str,
) -> Result<String, AllocError>
    requires { functions.now.stored ≡ [] }
{
    let mut shown = String::new(alloc);
    match program(alloc, functions, declarations)? {
        Some(program) => match target::<Run>(alloc, &program, name)? {
            Some(target) => push_target(&mut shown, &target)?,
            None => shown.push_str("nothing")?,
        },
        None => shown.push_str("no program")?,
    }
    Ok(shown)
}

/// The host and the port of the backend of a name.
pub fn server_shown(alloc: Global, row: &str) -> Result<String, AllocError> {
    let (name, declarations) = row.split_once(' ').unwrap_or((row, ""));
    match VmodTable::of(alloc, Vec::new(alloc)) {
        Ok(functions) => placed(alloc, &Shared::new(alloc, functions)?, name, declarations),
        Err(_) => Err(AllocError),
    }
}

fn placed(
    alloc: Global,
    functions: &Shared<VmodTable>,
    name: &str,
    declarations: &str,
) -> Result<String, AllocError>
    requires { functions.now.stored ≡ [] }
{
    match program(alloc, functions, declarations)? {
        Some(program) => place_shown(alloc, &program, name),
        None => format!(in alloc; "no program"),
    }
}

fn place_shown(alloc: Global, program: &Executable, name: &str) -> Result<String, AllocError> {
    let server = backend_of(alloc, program, &Text::of(alloc, name.as_bytes())?)?;
    let mut shown = String::new(alloc);
    push_bytes(&mut shown, server.host.bytes())?;
    shown.push(' ')?;
    push_bytes(&mut shown, server.port.bytes())?;
    Ok(shown)
}

// By the trait, as a round asks.
fn target<M: Runner>(
    alloc: Global,
    program: &M::Program,
    name: &str,
) -> Result<Option<Target>, AllocError> {
    if name == "-" {
        return Ok(Some(M::default_target(alloc, program)?));
    }
    let backend = Backend {
        name: Text::of(alloc, name.as_bytes())?,
        key: None,
        declared_none: false,
    };
    M::target(alloc, program, &backend)
}

fn program(
    alloc: Global,
    functions: &Shared<VmodTable>,
    declarations: &str,
) -> Result<Option<Box<Executable>>, AllocError>
    requires { functions.now.stored ≡ [] }
{
    let table = functions.copy()?;
    match program_of(alloc, &text_of(alloc, declarations)?, functions) {
        Ok(compiled) => {
            program_never_stuck(&compiled);
            backends_are_there(&compiled);
            Ok(Some(Box::new(alloc, Executable::of(compiled, table))?))
        }
        Err(_) => Ok(None),
    }
}

fn text_of(alloc: Global, declarations: &str) -> Result<Text, AllocError> {
    let mut text = String::new(alloc);
    text.push_str("vcl 4.1; import directors; ")?;
    text.push_str(declarations)?;
    Text::of(alloc, text.as_bytes())
}

fn push_target(shown: &mut String, target: &Target) -> Result<(), AllocError> {
    shown.push_str(kind(target.kind))?;
    shown.push(' ')?;
    push_bytes(shown, target.name.bytes())?;
    for member in target.members.as_slice() {
        shown.push(' ')?;
        push_bytes(shown, member.name.bytes())?;
        write!(shown, ":{}", member.weight)?;
    }
    Ok(())
}

fn kind(kind: DirectorKind) -> &'static str {
    match kind {
        DirectorKind::One => "one",
        DirectorKind::RoundRobin => "round_robin",
        DirectorKind::Fallback => "fallback",
        DirectorKind::Random => "random",
        DirectorKind::Hash => "hash",
    }
}
