// What holds of all arrows.
ghost use Rattle.fetch_graph.specs.Jar.{JarLives};

/// The jar of cookies lives as long as its fetch, over retries too: it is empty at first, each subroutine begins with the one that the
/// subroutine before it left, and nothing else changes it.
pub fn jar_lives()
    ensures { JarLives }
{}
