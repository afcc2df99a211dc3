// Where a round is given up. What was at hand is dropped here alone, and not on every way out of the others.
ghost use Rattle.std.specs.Prelude.{◌≡◌};
ghost use Rattle.client_graph.specs.Answers.{over as over_next};

use crate::{Next, Round, WaitPoint};

/// What can't be answered here ends the round.
pub fn over<T: Drop>(_at_hand: T, round: Round) -> Next
    ensures { result ≡ over_next round }
{
    Next::Rest {
        point: WaitPoint::Over,
        round,
    }
}
