// The planner: the chosen plan of a sealed table, under any core test.
#![tactic(auto)]

ghost use Rattle.tasks.specs.Tables.{sealed};
ghost use Rattle.planning.specs.Planning.{Plans};

mod placing;
pub mod types;
mod walk;

use bounded::Bounded;
use coretests::CoreTest;
use plans::Row;
use tasks::{Refusal, Sealed};
pub use types::{Planned, Search};

// The cheapest lawful plan: of several, the one whose core numbers come first in dictionary order; and of cuts that cost the same,
// those whose first region reaches furthest, then the second, and so on. Refused where no plan is lawful.
pub fn plan<C: CoreTest>(table: &Sealed, test: &C) -> Result<Planned, Refusal>
    ensures { Plans (C.accepts test.now) (C.limit test.now) (sealed table.now) result }
{
    if table.tasks().is_empty() {
        let rows = Bounded::default();
        return Ok(Planned { rows, cost: 0 });
    }
    let mut walk = Search::new(table, test);
    while walk.advance() {}
    walk.best.ok_or(Refusal::NoLawfulPlan)
}
