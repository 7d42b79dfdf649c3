ghost use Rattle.bounded.specs.Lists.{list_of};
ghost use Rattle.tasks.specs.Tables.{sealed};
ghost use Rattle.coretests.specs.Edf.{EdfAccepts, edf_limit};
ghost use Rattle.plans.specs.Plans.{Lawful};
ghost use Rattle.rehearsals.specs.Promises.{RunsInTime, Promises};

use crate::types::Rehearsal;
use cabinet::Cabinet;
use clearing::{Cleared, clear};
use coretests::{CoreTest, EdfPile};
use machine::{Answer, Call};
use planning::plan;
use plans::Row;
use tasks::Sealed;

// Clears a plan that is lawful under EDF, loads it, and runs the calls.
fn run_plan(table: &Sealed, rows: &[Row], start: u64, calls: &[Call], log: &mut [Answer]) -> usize
    requires { Lawful EdfAccepts edf_limit (sealed table.now) rows.now }
    ensures { RunsInTime (sealed table.now) rows.now start calls.now log.old result log.new }
{
    let mut cleared = Cleared::new();
    match clear(table, rows, &mut cleared) {
        Ok(()) => Cabinet::load(cleared, start).run(calls, log),
        // never: the plan is lawful
        Err(_) => unreachable(),
    }
}

// Plans the table under a core test and under a pile over EDF, loads the pile's plan at the start clock,
// and runs the calls, as far as the log has room for their answers. The three promises stand here.
pub fn rehearse<C: CoreTest, P: EdfPile>(
    table: &Sealed,
    test: &C,
    pile: &P,
    start: u64,
    calls: &[Call],
    log: &mut [Answer],
) -> Rehearsal
    ensures { Promises (C.CoreTest.accepts test.now) (C.CoreTest.limit test.now) (P.CoreTest.accepts pile.now) (P.CoreTest.limit pile.now) (sealed table.now) start calls.now log.old result log.new }
{
    let planned = plan(table, test);
    let piled = plan(table, pile);
    let ran = match piled {
        Ok(made) => run_plan(table, made.rows.as_slice(), start, calls, log),
        Err(_) => 0,
    };
    Rehearsal {
        planned,
        piled,
        ran,
    }
}
