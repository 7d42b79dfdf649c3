// The limits that are computed are those that the rules describe: each clause is a theorem.
ghost use Rattle.coretests.specs.Meanings.{LeastSlackIsLeast, ToleranceIsLargest};

pub fn least_slack_is_least()
    ensures { LeastSlackIsLeast }
{}

#[tactic(auto, using(crate::specs::Tolerances::tolerance_is_largest_lem))]
pub fn tolerance_is_largest()
    ensures { ToleranceIsLargest }
{}
