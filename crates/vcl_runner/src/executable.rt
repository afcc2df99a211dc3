// A program with the functions that it calls.
ghost use Rattle.std.specs.Prelude.{◌≡◌, ◌<◌, All, length};
ghost use Rattle.vcl_meaning.specs.Meaning.{NeverStuck};
ghost use Rattle.vcl_runner.specs.Sure.{never_stuck_alone};

use units::Shared;
use vcl_program::Compiled;
use vmod_host::VmodTable;

/// A sound text in numbers, with the table of the functions that it was checked with. No run of it gets stuck, and
/// the backends of its numbers are there.
#[derive(Drop)]
pub struct Executable {
    pub compiled: Compiled,
    pub functions: Shared<VmodTable>,
    pub ghost same: { functions.stored ≡ compiled.program.stored },
    pub ghost sure: { NeverStuck compiled.program.tree.items compiled.program.stored } by { never_stuck_alone compiled.program.tree.items compiled.program.stored },
    pub ghost has_default: { compiled.code.default_backend < length compiled.code.backends },
    pub ghost has_members: { All (λ member. member.backend < length compiled.code.backends) compiled.code.members },
}

impl Executable {
    pub fn of(compiled: Compiled, functions: Shared<VmodTable>) -> Executable
        requires same { functions.stored ≡ compiled.program.stored }
        requires sure { NeverStuck compiled.program.tree.items compiled.program.stored }
        requires default { compiled.code.default_backend < length compiled.code.backends }
        requires members { All (λ member. member.backend < length compiled.code.backends) compiled.code.members }
        ensures { result.compiled ≡ compiled }
    {
        Executable {
            compiled,
            functions,
        }
    }
}
