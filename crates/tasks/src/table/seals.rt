ghost use Rattle.std.specs.Prelude.{◌≡◌};
ghost use Rattle.span.specs.Spans.{span_of, LeastCommonMultiple};
ghost use Rattle.tasks.specs.Tasks.{periods};
ghost use Rattle.tasks.specs.Stored.{tasks_of};
ghost use Rattle.tasks.specs.Tables.{drafted, sealed};

use crate::table::{Draft, Sealed};
use crate::task::Task;
use span::span_of;

impl Sealed {
    pub fn cores(&self) -> u32
        ensures { result ≡ (sealed self.now).cores }
    {
        self.table.cores
    }

    // The tasks in order of deadline.
    pub fn tasks(&self) -> &[Task]
        ensures { tasks_of result.now ≡ (sealed self.now).tasks }
    {
        self.table.tasks.as_slice()
    }

    // The least common multiple of the periods, 1 of no task.
    pub fn span(&self) -> u32
        ensures value { result ≡ span_of (periods (sealed self.now).tasks) }
        ensures least { LeastCommonMultiple (periods (sealed self.now).tasks) result }
    {
        match span_of(self.tasks()) {
            Some(span) => span,
            // never: a table keeps its span within the longest
            None => unreachable(),
        }
    }

    // A second table of the same cores and tasks. It is no `clone`, since that may fail and this cannot.
    pub fn duplicate(&self) -> Sealed
        ensures { sealed result ≡ sealed self.now }
    {
        Sealed { table: self.table }
    }

    // A draft again, with the same cores and tasks.
    pub fn open(self) -> Draft
        ensures { drafted result ≡ sealed self }
    {
        Draft { table: self.table }
    }
}
