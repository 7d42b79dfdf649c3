ghost use Rattle.grammar.specs.Outcomes.{OneOutcome};

// Does nothing: its contract states that the grammar has one outcome for any bytes.
pub fn has_one_outcome()
    ensures { OneOutcome }
{}
