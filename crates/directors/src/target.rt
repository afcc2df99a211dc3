// What a request is to be sent to: one backend, or a director with its members.
use crate::DirectorKind;
use std::alloc::{AllocError, Global};
use units::{Copied, Sequence, Text};

/// A member of a director, with its weight. A backend that is declared as none has the weight 0, and one without a weight
/// of its own has 1.
#[derive(Drop)]
pub struct Member {
    pub name: Text,
    pub weight: u32,
}

/// A backend or a director of a VCL, by its name. A single backend is its own one member.
#[derive(Drop)]
pub struct Target {
    pub kind: DirectorKind,
    pub name: Text,
    pub members: Sequence<Member>,
}

impl Copied for Member {
    fn copied(&self, alloc: Global) -> Result<Self, AllocError> {
        Ok(Member {
            name: self.name.copy()?,
            weight: self.weight,
        })
    }
}

impl Copied for Target {
    fn copied(&self, alloc: Global) -> Result<Self, AllocError> {
        Ok(Target {
            kind: self.kind,
            name: self.name.copy()?,
            members: self.members.copied(alloc)?,
        })
    }
}
