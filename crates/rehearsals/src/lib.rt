// The calls that the programs make.
#![tactic(auto)]

ghost use Rattle.tasks.specs.Tables.{sealed};
ghost use Rattle.rehearsals.specs.Plans.{PlansAndClears};
ghost use Rattle.rehearsals.specs.Answers.{PlansSheet, Answers};

mod rehearsal;
pub mod types;

use clearing::{Cleared, clear};
use coretests::{Edf, EdfPile};
pub use plan_writer::MAX_TEXT;
use plan_writer::write_plan;
use planning::plan;
pub use press::MAX_SHEET;
pub use rehearsal::rehearse;
use sheet::read_sheet;
use tasks::{Draft, Refusal, Sealed};
pub use types::Rehearsal;
use writer::write;

// Plans the table under a pile over EDF, and clears the plan.
pub fn plan_and_clear<P: EdfPile>(
    table: &Sealed,
    test: &P,
    cleared: &mut Cleared,
) -> Result<(), Refusal>
    ensures { PlansAndClears (P.CoreTest.accepts test.now) (P.CoreTest.limit test.now) (sealed table.now) cleared.old result cleared.new }
{
    let planned = plan(table, test)?;
    match clear(table, planned.rows.as_slice(), cleared) {
        Ok(()) => Ok(()),
        // never: a plan made under a pile over EDF is lawful under EDF
        Err(_) => unreachable(),
    }
}

// Plans the table of a sheet under EDF, and clears the plan.
pub fn plan_sheet(sheet: &[u8], cleared: &mut Cleared) -> Result<(), Refusal>
    ensures { PlansSheet sheet.now cleared.old result cleared.new }
{
    let mut draft = Draft::new();
    read_sheet(sheet, &mut draft)?;
    plan_and_clear(&draft.seal(), &Edf, cleared)
}

// Writes the plan of a sheet, or the line that tells why there is none.
pub fn answer(sheet: &[u8], out: &mut [u8]) -> Result<usize, Refusal>
    ensures { Answers sheet.now out.old result out.new }
{
    let mut cleared = Cleared::new();
    match plan_sheet(sheet, &mut cleared) {
        Ok(()) => write_plan(&cleared, out),
        Err(refusal) => write(&refusal, out),
    }
}
