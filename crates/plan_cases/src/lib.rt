// Worked cases of planning: plans that the rules choose, and tables that have no lawful plan.
#![tactic(auto)]

ghost use Rattle.plan_cases.specs.Cases.{WorkedCases};

// The cases are facts about the rules themselves: the clause is a theorem.
pub fn worked_cases()
    ensures { WorkedCases }
{}

#[cfg(test)]
mod tests;
