ghost use Rattle.std.specs.Prelude.{◌≡◌};
ghost use Rattle.tasks.specs.Stored.{proposed};
ghost use Rattle.tasks.specs.Tasks.{empty_on};
ghost use Rattle.tasks.specs.Tables.{drafted, sealed, Adds, NewDraft};

use crate::proposal::Proposal;
use crate::refusal::Refusal;
use crate::table::lists::{has_id, no_tasks, place_for};
use crate::table::{Draft, Held, MAX_CORES, MAX_TASKS, Sealed};
use crate::task::Task;
use span::span_of;

impl Draft {
    // A table of no task on one core.
    pub fn new() -> Draft
        ensures { drafted result ≡ empty_on 1 }
    {
        Draft {
            table: Held {
                cores: 1,
                tasks: no_tasks(),
            },
        }
    }

    // Empties the draft and sets its cores. A refusal names the place 0: beside `new_draft_at`, for callers that have no sheet.
    pub fn new_draft(&mut self, cores: u32) -> Result<(), Refusal>
        ensures { NewDraft 0 self.old cores result self.new }
    {
        self.new_draft_at(0, cores)
    }

    // The same for the line of a sheet that begins at the offset `at`.
    pub fn new_draft_at(&mut self, at: usize, cores: u32) -> Result<(), Refusal>
        ensures { NewDraft at self.old cores result self.new }
    {
        if !(1..=MAX_CORES).contains(&cores) {
            return Err(Refusal::OutOfRange { at });
        }
        self.table.tasks.clear();
        self.table.cores = cores;
        Ok(())
    }

    // Puts the task in after all tasks whose deadline is not later. A refusal names the place 0, as that of `new_draft` does.
    pub fn add(&mut self, task: &Proposal<'_>) -> Result<(), Refusal>
        ensures { Adds 0 self.old (proposed task.now) result self.new }
    {
        self.add_at(0, task)
    }

    // The same for the line of a sheet that begins at the offset `at`.
    pub fn add_at(&mut self, at: usize, task: &Proposal<'_>) -> Result<(), Refusal>
        ensures { Adds at self.old (proposed task.now) result self.new }
    {
        let Ok(new) = Task::try_from(task) else {
            return Err(Refusal::OutOfRange { at });
        };
        let tasks = self.table.tasks.as_slice();
        if has_id(tasks, task.id) {
            return Err(Refusal::IdTaken { at });
        }
        if tasks.len() >= MAX_TASKS {
            return Err(Refusal::TableFull { at });
        }
        // The table is tried aside, and kept only if its span is short enough.
        let mut next = self.table.tasks;
        let _ = next.insert(place_for(tasks, task.deadline), new);
        let Some(_) = span_of(next.as_slice()) else {
            return Err(Refusal::LongSpan { at });
        };
        self.table.tasks = next;
        Ok(())
    }

    // No more tasks: the table as it is.
    pub fn seal(self) -> Sealed
        ensures { sealed result ≡ drafted self }
    {
        Sealed { table: self.table }
    }
}
