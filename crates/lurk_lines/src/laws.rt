// A law of sessions, as the contract of a function that does nothing.
ghost use Rattle.cache_law.specs.Beginning.{Beginning};
ghost use Rattle.replay.specs.Plan.{plan_of};
ghost use Rattle.lurk_lines.specs.Said.{LeaveNoTrace};

use replay::Policy;

/// Two sessions that say the same beside the lurker have one history and one text, where they are led by this policy and played to
/// their ends, the texts of VCLs that they bring are plain, and the law leaves each entry one answer: no insertion was refused and no
/// list of bans asked for.
pub fn lurk_lines_leave_no_trace<P: Policy>()
    ensures { (beginning : Beginning) → LeaveNoTrace (plan_of P.wants beginning) }
{}
