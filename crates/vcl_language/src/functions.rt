// The functions of the language and of its modules, and the methods of directors.
ghost use Rattle.std.specs.Prelude.{◌≡◌};
ghost use Rattle.vcl_language.specs.Functions.{function_named, method_of, method_named};

use crate::modules::Module;
use crate::names::{entry_at, row_of};
use crate::scope::Scope;
use directors::DirectorKind;
use vcl_values::Kind;

/// What a function wants in one place.
#[derive(Clone, Copy, Debug)]
pub enum Parameter {
    /// A value of this type; of any type where it is STRING.
    Value(Kind),
    /// One string that is a pattern.
    Pattern,
    /// An integer as it is written, from 1 to 1,000.
    Weight,
}

/// A place for an argument.
#[derive(Clone, Copy, Debug)]
pub enum Slot {
    /// Nothing may stand there.
    Closed,
    Needed(Parameter),
    Optional(Parameter),
}

/// What a function or a word of return takes, from the left: no more than three arguments.
pub type Takes = [Slot; 3];

/// A function: what it takes and gives, where it may stand, and the module that it needs.
#[derive(Clone, Copy)]
pub struct Function {
    pub takes: Takes,
    pub gives: Option<Kind>,
    pub scope: Scope,
    pub module: Module,
}

pub const TEXT: Parameter = Parameter::Value(Kind::String);

pub const STRING: Option<Kind> = Some(Kind::String);

pub const INT: Option<Kind> = Some(Kind::Int);

pub const NO_VALUE: Option<Kind> = None;

pub const NOTHING: Takes = [Slot::Closed, Slot::Closed, Slot::Closed];

pub const ONE_TEXT: Takes = [Slot::Needed(TEXT), Slot::Closed, Slot::Closed];

pub const TEXT_PATTERN_TEXT: Takes = [
    Slot::Needed(TEXT),
    Slot::Needed(Parameter::Pattern),
    Slot::Needed(TEXT),
];

const BACKEND: Slot = Slot::Needed(Parameter::Value(Kind::Backend));

// the name, what it takes, what it gives, where it stands, its module
macro_rules! functions {
    ($column:ident) => {
        $column! {
            "hash_data" ONE_TEXT NO_VALUE Hash Language;
            "synthetic" ONE_TEXT NO_VALUE SynthBackendError Language;
            "ban" ONE_TEXT NO_VALUE Client Language;
            "regsub" TEXT_PATTERN_TEXT STRING Traffic Language;
            "regsuball" TEXT_PATTERN_TEXT STRING Traffic Language;
            "xkey.purge" ONE_TEXT INT Client Xkey;
            "xkey.softpurge" ONE_TEXT INT Client Xkey;
        }
    };
}

macro_rules! names {
    ($($name:literal $takes:ident $gives:ident $scope:ident $module:ident;)*) => { [$($name),*] };
}

macro_rules! entries {
    ($($name:literal $takes:ident $gives:ident $scope:ident $module:ident;)*) => {
        [$(Function {
            takes: $takes,
            gives: $gives,
            scope: Scope::$scope,
            module: Module::$module,
        }),*]
    };
}

pub static FUNCTION_NAMES: [&str; 7] = functions!(names);

pub static FUNCTIONS: [Function; 7] = functions!(entries);

/// The function of this name, other than stored functions and methods.
#[tactic(auto, unfolding(crate::specs::Functions::function_named))]
pub fn function_named(name: &[u8]) -> Option<Function>
    ensures { result ≡ function_named name.now }
{
    // A static that holds arrays isn't borrowed where it stands.
    let functions = FUNCTIONS;
    entry_at(&functions, row_of(&FUNCTION_NAMES, name))
}

/// What may be called of a director.
#[derive(Clone, Copy, Debug, PartialEq, Eq)]
pub enum Method {
    AddBackend,
    Backend,
}

/// The method of this name.
pub fn method_named(name: &[u8]) -> Option<Method>
    ensures { result ≡ method_named name.now }
{
    if name == b"add_backend".as_slice() {
        Some(Method::AddBackend)
    } else if name == b"backend".as_slice() {
        Some(Method::Backend)
    } else {
        None
    }
}

/// What a method of a director of this kind takes and gives.
pub fn method_of(kind: DirectorKind, method: Method) -> Function
    ensures { result ≡ method_of kind method }
{
    match method {
        Method::AddBackend => Function {
            takes: match kind {
                DirectorKind::Random | DirectorKind::Hash => {
                    [BACKEND, Slot::Optional(Parameter::Weight), Slot::Closed]
                }
                _ => [BACKEND, Slot::Closed, Slot::Closed],
            },
            gives: None,
            scope: Scope::Init,
            module: Module::Language,
        },
        Method::Backend => Function {
            takes: match kind {
                DirectorKind::Hash => ONE_TEXT,
                _ => NOTHING,
            },
            gives: Some(Kind::Backend),
            scope: Scope::Traffic,
            module: Module::Language,
        },
    }
}
