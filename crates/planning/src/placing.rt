// One task on one core.
ghost use Rattle.std.specs.Prelude.{◌≡◌, ◌≤◌, true, Decides};
ghost use Rattle.bounded.specs.Lists.{list_of};
ghost use Rattle.tasks.specs.Tasks.{in_range};
ghost use Rattle.tasks.specs.Stored.{task_of};
ghost use Rattle.plans.specs.Plans.{rows_placed};
ghost use Rattle.optimality.specs.Beginnings.{Spare};
ghost use Rattle.planning.specs.Walk.{PutWell, beats};

use crate::types::Planned;
use bounded::Bounded;
use coretests::CoreTest;
use cuts::best_cuts;
use plans::{Placed, Placings, Row, is_idle, on_core, placed};
use tasks::{MAX_TASKS, Task};

// Whether the core is empty and a lower one too: a plan that goes on with this core has a twin, as cheap and earlier, with that one.
pub fn is_spare(before: &Placings, core: u32) -> bool
    ensures { Decides result (Spare core (list_of before.now)) }
{
    let before = before.as_slice();
    is_idle(before, core) && (1..core).any(|lower| is_idle(before, lower))
}

// The task on the core, behind those that are placed: with the cuts chosen there, if the core's list is then accepted.
pub fn put<C: CoreTest>(
    test: &C,
    task: &Task,
    weight: u64,
    before: &Placings,
    core: u32,
) -> Option<Placed>
    requires range { in_range (task_of task.now) ≡ true }
    requires light { weight ≤ 1000000 }
    ensures { PutWell (C.accepts test.now) (C.limit test.now) weight (list_of before.now) (task_of task.now) core result }
{
    let mut list = on_core(before.as_slice(), core);
    let longest = test.longest(list.as_slice(), task.deadline);
    let best = best_cuts(task, longest)?;
    let cuts = best.flags;
    let next = placed(task, Row { core, cuts }, best.cost, weight);
    // a list that has no room for the entry is accepted by no test
    list.push(next.entry).ok()?;
    test.holds(list.as_slice()).then_some(next)
}

// Whether a plan of this cost would be cheaper than the plan in hand.
pub fn is_cheaper(cost: u64, best: &Option<Planned>) -> bool
    ensures { result ≡ beats cost best.now }
{
    best.as_ref().is_none_or(|plan| cost < plan.cost)
}

// The rows of the placed tasks.
pub fn rows_placed(placed: &Placings) -> Bounded<Row, MAX_TASKS>
    ensures { list_of result ≡ rows_placed (list_of placed.now) }
{
    let mut rows = Bounded::default();
    for task in placed.as_slice() {
        let _ = rows.push(task.row);
    }
    rows
}
