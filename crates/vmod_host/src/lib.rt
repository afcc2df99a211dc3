//! Stored functions: the functions that a module brings to VCL, each with a tag, a signature and its code.
//!
//! Contract for the layer above: what each tag means is a table in `specs/`, and a `Vmod` keeps that an answer
//! of its code on arguments of its signature is the meaning of its tag and of the type that the signature
//! gives. A `VmodTable` has no tag twice. The four functions of the module `std` stand here; who makes
//! `Vmod`s is passed their code, since no library hands out a function.
#![tactic(auto)]

mod integers;
mod signature;
mod strings;
mod table;
mod vmod;

pub use integers::integer;
pub use signature::{JarUse, Signature, Stored, stored_number};
pub use strings::{strlen, tolower, toupper};
pub use table::{TableError, VmodTable};
pub use vmod::Vmod;

/// The tag of `std.tolower`.
pub const TOLOWER: u32 = 1;

/// The tag of `std.toupper`.
pub const TOUPPER: u32 = 2;

/// The tag of `std.integer`.
pub const INTEGER: u32 = 3;

/// The tag of `std.strlen`.
pub const STRLEN: u32 = 4;

/// The tag of `cookie.parse`.
pub const PARSE: u32 = 5;

/// The tag of `cookie.set`.
pub const SET: u32 = 6;

/// The tag of `cookie.get`.
pub const GET: u32 = 7;

/// The tag of `cookie.isset`.
pub const ISSET: u32 = 8;

/// The tag of `cookie.delete`.
pub const DELETE: u32 = 9;

/// The tag of `cookie.keep`.
pub const KEEP: u32 = 10;

/// The tag of `cookie.filter`.
pub const FILTER: u32 = 11;

/// The tag of `cookie.clean`.
pub const CLEAN: u32 = 12;

/// The tag of `cookie.get_string`.
pub const GET_STRING: u32 = 13;
