ghost use Rattle.std.specs.Prelude.{◌≡◌, []};
ghost use Rattle.tasks.specs.Tasks.{empty_on};
ghost use Rattle.tasks.specs.Tables.{sealed};
ghost use Rattle.clearing.specs.Clearing.{table_in, rows_in, Clears};

use crate::cleared::Cleared;
use crate::examine::examine_plan;
use bounded::Bounded;
use coretests::Edf;
use plans::Row;
use tasks::{Draft, Refusal, Sealed};

impl Cleared {
    // An empty table on one core, with its empty plan.
    pub fn new() -> Cleared
        ensures table { table_in result ≡ empty_on 1 }
        ensures rows { rows_in result ≡ [] }
    {
        let empty = Draft::new();
        Cleared {
            table: empty.seal(),
            rows: Bounded::default(),
        }
    }

    pub fn table(&self) -> &Sealed
        ensures { sealed result.now ≡ table_in self.now }
    {
        &self.table
    }

    // One row for each task, in the order of the table.
    pub fn rows(&self) -> &[Row]
        ensures { result.now ≡ rows_in self.now }
    {
        self.rows.as_slice()
    }
}

// Fills `cleared` with copies of the table and its plan if the plan is lawful under the EDF test. A refusal leaves it as it was.
pub fn clear(table: &Sealed, rows: &[Row], cleared: &mut Cleared) -> Result<(), Refusal>
    ensures { Clears (sealed table.now) rows.now cleared.old result cleared.new }
{
    examine_plan(&Edf, table, rows)?;
    let mut kept = Bounded::default();
    let _ = kept.extend_from_slice(rows);
    *cleared = Cleared {
        table: table.duplicate(),
        rows: kept,
    };
    Ok(())
}
