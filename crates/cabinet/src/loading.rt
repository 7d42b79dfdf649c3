// A plan turned into the records of a cabinet in which nothing was released yet.
ghost use Rattle.std.specs.Prelude.{◌≡◌, ◌≤◌, true, length};
ghost use Rattle.bounded.specs.Lists.{list_of};
ghost use Rattle.tasks.specs.Tasks.{in_range};
ghost use Rattle.tasks.specs.Cuts.{regions};
ghost use Rattle.tasks.specs.Stored.{task_of};
ghost use Rattle.tasks.specs.Tables.{sealed};
ghost use Rattle.machine.specs.Assigning.{IsAssigned, AssignedAll};
ghost use Rattle.machine.specs.Machine.{start};
ghost use Rattle.cabinet.specs.States.{state_of};

use crate::plain::{CLOCK_END, Plain};
use bounded::Bounded;
use cuts::Regions;
use machine::{Assigned, Slot};
use plans::Row;
use tasks::{MAX_BLOCKS, MAX_POINTS, MAX_TASKS, Sealed, Task};

// The lengths of the regions that the cuts make of the task.
fn regions_of(task: &Task, cuts: &[bool; MAX_POINTS]) -> Bounded<u32, MAX_BLOCKS>
    requires { in_range (task_of task.now) ≡ true }
    ensures { list_of result ≡ regions (task_of task.now) cuts.now }
{
    let mut lengths = Bounded::new(0);
    for length in Regions::new(task, cuts) {
        let _ = lengths.push(length);
    }
    lengths
}

// The task as its row assigns it.
fn assign(task: &Task, row: &Row) -> Assigned
    requires { in_range (task_of task.now) ≡ true }
    ensures { IsAssigned (task_of task.now) row.now result }
{
    Assigned {
        core: row.core,
        period: task.period,
        deadline: task.deadline,
        regions: regions_of(task, &row.cuts),
    }
}

// Each task as its row assigns it.
pub fn assign_all(table: &Sealed, rows: &[Row]) -> Bounded<Assigned, MAX_TASKS>
    requires { length (sealed table.now).tasks ≡ length rows.now }
    ensures { AssignedAll (sealed table.now).tasks rows.now (list_of result) }
{
    let mut all = Bounded::default();
    for (task, row) in table.tasks().iter().zip(rows) {
        let _ = all.push(assign(task, row));
    }
    all
}

// Nothing is released yet, and a clock beyond the end is taken as the end.
pub fn started(tasks: &Bounded<Assigned, MAX_TASKS>, cores: u32, clock: u64) -> Plain
    requires { cores ≤ 8 }
    ensures { state_of result ≡ start cores clock (list_of tasks.now) }
{
    let mut slots = Bounded::default();
    for task in tasks.as_slice() {
        let _ = slots.push(Slot::unreleased(*task));
    }
    Plain {
        slots,
        cores,
        clock: clock.min(CLOCK_END),
    }
}
