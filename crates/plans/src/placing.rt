// Tasks as their rows place them, and what a plan costs.
ghost use Rattle.std.specs.Prelude.{◌≡◌, ◌≤◌, true};
ghost use Rattle.bounded.specs.Lists.{list_of};
ghost use Rattle.tasks.specs.Tasks.{in_range};
ghost use Rattle.tasks.specs.Stored.{task_of};
ghost use Rattle.tasks.specs.Tables.{sealed};
ghost use Rattle.plans.specs.Plans.{placed_with, places, cost};

use crate::types::{Placed, Placings, Row};
use bounded::Bounded;
use coretests::Entry;
use cuts::{cut_cost, total_blocks};
use tasks::{Sealed, Task};

// The task in its row, with cuts that cost `cut_cost`; `weight` is the number of its periods in one span.
pub fn placed(task: &Task, row: Row, cut_cost: u32, weight: u64) -> Placed
    requires range { in_range (task_of task.now) ≡ true }
    requires cheap { cut_cost ≤ 15000000 }
    requires light { weight ≤ 1000000 }
    ensures { result ≡ placed_with (task_of task.now) row cut_cost weight }
{
    let entry = Entry {
        period: task.period,
        deadline: task.deadline,
        load: total_blocks(task) + cut_cost,
    };
    Placed {
        row,
        entry,
        overhead: weight * u64::from(cut_cost),
    }
}

// The tasks of the table as the rows place them, as far as there are both.
pub fn place_all(table: &Sealed, rows: &[Row]) -> Placings
    ensures { list_of result ≡ places (sealed table.now) (sealed table.now).tasks rows.now }
{
    let span = table.span();
    let mut all = Bounded::default();
    for (task, row) in table.tasks().iter().zip(rows) {
        let weight = (span / task.period) as u64;
        let price = cut_cost(task, &row.cuts);
        let _ = all.push(placed(task, *row, price, weight));
    }
    all
}

// What the rows cost: the overheads of their tasks, added up.
pub fn cost_of(table: &Sealed, rows: &[Row]) -> u64
    ensures value { result ≡ cost (sealed table.now) rows.now }
    ensures bound { result ≤ 360000000000000 }
{
    place_all(table, rows)
        .as_slice()
        .iter()
        .map(|placed| placed.overhead)
        .sum()
}
