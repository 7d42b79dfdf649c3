// The struct alone: specs/Clearing names it, so its functions stand in a module below.
ghost use Rattle.bounded.specs.Lists.{list_of};
ghost use Rattle.tasks.specs.Tables.{sealed};
ghost use Rattle.coretests.specs.Edf.{EdfAccepts, edf_limit};
ghost use Rattle.plans.specs.Plans.{Lawful};

use bounded::Bounded;
use plans::Row;
use tasks::{MAX_TASKS, Sealed};

pub mod methods;

// A table with a plan that is lawful under the EDF test. Only `clear` fills one, so a cabinet cannot be loaded with any other plan.
#[derive(Drop)]
pub struct Cleared {
    table: Sealed,
    rows: Bounded<Row, MAX_TASKS>,
    ghost lawful: { ∥ Lawful EdfAccepts edf_limit (sealed table) (list_of rows) ∥₁ },
}
