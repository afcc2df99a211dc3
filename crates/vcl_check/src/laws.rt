// What follows from that a text is sound.
ghost use Rattle.vcl_check.specs.FittingProbes.{DeclaredFit, NestedFit};
ghost use Rattle.vcl_check.specs.Sentences.{SoundKeeps};

/// A text that is sound keeps each of the sentences of what is asked of a program.
pub fn sound_keeps()
    ensures { SoundKeeps }
{}

/// In a text that is sound the numbers of each probe's window fit.
pub fn probes_fit()
    ensures declared { DeclaredFit }
    ensures nested { NestedFit }
{}
