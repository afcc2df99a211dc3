// Laws of texts of VCL, as contracts of functions that do nothing.
ghost use Rattle.vcl_refusals.specs.Laws.{OneJoinedTree, OneOutcome};

/// A text has one joined tree at most.
pub fn one_joined_tree()
    ensures { OneJoinedTree }
{}

/// A plain text comes to one thing with a table of stored functions where it is checked: it is accepted with one tree, or refused for
/// one cause at one place.
pub fn one_outcome()
    ensures { OneOutcome }
{}
