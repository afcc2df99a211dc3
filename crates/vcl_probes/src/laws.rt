// What the probes of any text keep.
ghost use Rattle.vcl_probes.specs.TextProbes.{ProbesInRange};

/// The probes of any text have numbers in range.
pub fn probes_in_range()
    ensures { ProbesInRange }
{}
