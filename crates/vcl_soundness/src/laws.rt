// What runs of sound texts never come to.
ghost use Rattle.std.specs.Prelude.{ℕ, ◌<◌, All, List, length};
ghost use Rattle.vcl_store.specs.Joined.{IsJoined};
ghost use Rattle.vcl_meaning.specs.Meaning.{NeverStuck};
ghost use Rattle.vcl_soundness.specs.Laws.{AreMeant, NoRunStuck, RefusedAlone, StandardAreMeant};

use vcl_program::Compiled;

/// No run of a sound text gets stuck.
pub fn no_run_stuck()
    ensures { NoRunStuck }
{}

/// The same of a sound text that is kept in numbers.
pub fn program_never_stuck(program: &Compiled)
    ensures { (text : List ℕ) → ∥ IsJoined text program.now.program.tree ∥₁ → AreMeant program.now.program.stored
        → NeverStuck program.now.program.tree.items program.now.program.stored }
{}

/// In the numbered form of a sound text the default backend is there, and so is the backend of each director's member.
pub fn backends_are_there(program: &Compiled)
    ensures default { program.now.code.default_backend < length program.now.code.backends }
    ensures members { All (λ member. member.backend < length program.now.code.backends) program.now.code.members }
{}

/// `set` of a variable to a value of its type is refused for what a head's line can't carry or for a jar's text over the limit, and for
/// nothing else.
pub fn refused_alone()
    ensures { RefusedAlone }
{}

/// The functions of the modules `std` and `cookie` are as these laws ask it of stored functions.
pub fn standard_are_meant()
    ensures { StandardAreMeant }
{}
