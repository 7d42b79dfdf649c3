// Why planning finds the choice: facts about lawful plans of any table, under any core test that keeps its laws.
#![tactic(auto)]

ghost use Rattle.optimality.specs.Meanings.{FittingIsByPlace, OneChoice, ChoiceHasChosenCuts, LawfulUnderEdf};

use coretests::{CoreTest, EdfPile};

// The rows of a lawful plan suit their tasks, place by place.
pub fn fitting_is_by_place()
    ensures { FittingIsByPlace }
{}

// No two plans are both the choice, unless they agree in cost, cores and cuts.
pub fn one_choice<C: CoreTest>(test: &C)
    ensures { OneChoice (C.accepts test.now) (C.limit test.now) }
{}

// Each task of the chosen plan has the cuts that are chosen behind the tasks before it.
pub fn choice_has_chosen_cuts<C: CoreTest>(test: &C)
    ensures { ChoiceHasChosenCuts (C.accepts test.now) (C.limit test.now) }
{}

// Whatever the layers over EDF, a lawful plan is lawful under EDF itself.
pub fn pile_plans_are_lawful<P: EdfPile>(pile: &P)
    ensures { LawfulUnderEdf (P.CoreTest.accepts pile.now) (P.CoreTest.limit pile.now) }
{}
