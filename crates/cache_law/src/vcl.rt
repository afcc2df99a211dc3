// The VCLs that a cache holds, and what belongs to each.
use std::alloc::{AllocError, Global};
use units::{Copied, Sequence, Shared, Text};

/// A VCL as it is loaded: its name, its text, and the names of the backends that the text declares.
#[derive(Drop)]
pub struct VclSource {
    pub name: Text,
    pub text: Text,
    pub backends: Sequence<Text>,
}

/// A VCL under the number that it was loaded under. No number is given twice.
#[derive(Drop)]
pub struct Vcl {
    pub number: u32,
    pub name: Text,
    pub text: Text,
    pub backends: Sequence<Text>,
}

/// A VCL that the cache holds. One that is discarded is held for the rounds that run under it.
#[derive(Drop)]
pub struct LoadedVcl {
    pub vcl: Shared<Vcl>,
    pub is_discarded: bool,
}

/// What a VCL is for.
#[derive(Clone, Copy, Debug, PartialEq, Eq)]
pub enum VclState {
    /// Rounds begin under it.
    Active,
    /// It can be made the active one.
    Available,
    /// It is there for the rounds under it alone, and its name is free.
    Discarded,
}

/// A line of the list of VCLs.
#[derive(Drop)]
pub struct VclLine {
    pub state: VclState,
    /// How many rounds run under it.
    pub references: u64,
    pub name: Text,
}

impl Copied for VclLine {
    fn copied(&self, alloc: Global) -> Result<Self, AllocError> {
        Ok(VclLine {
            state: self.state,
            references: self.references,
            name: self.name.copy()?,
        })
    }
}

/// How far a director of kind round_robin of a VCL has counted.
#[derive(Drop)]
pub struct Counter {
    pub vcl: u32,
    pub director: Text,
    pub next: u64,
}

/// What the health of a backend is set to.
#[derive(Clone, Copy, Debug, PartialEq, Eq)]
pub enum Health {
    /// It isn't set. So the backend is healthy.
    Auto,
    Healthy,
    Sick,
}

/// The health that a backend of a VCL was set to.
#[derive(Drop)]
pub struct ForcedHealth {
    pub vcl: u32,
    pub backend: Text,
    pub is_healthy: bool,
}
