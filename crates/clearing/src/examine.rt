// What is wrong with a plan, in the order in which it is told.
ghost use Rattle.std.specs.Prelude.{◌≡◌, []};
ghost use Rattle.bounded.specs.Lists.{list_of};
ghost use Rattle.tasks.specs.Stored.{task_of};
ghost use Rattle.tasks.specs.Tables.{sealed};
ghost use Rattle.plans.specs.Plans.{places, rows_placed};
ghost use Rattle.clearing.specs.Refused.{row_fault, region_refusal};
ghost use Rattle.clearing.specs.Examined.{refusal_in, rows_refusal, Examined};

use crate::loads::first_overloaded;
use coretests::CoreTest;
use cuts::{has_cut_beyond, regions_within};
use plans::{Placed, Placings, Row, on_core, place_all};
use tasks::{Refusal, Sealed, Task};

// A core of the cabinet, and cuts at points of the task.
fn examine_row(cores: u32, task: &Task, row: &Row, place: usize) -> Result<(), Refusal>
    ensures { refusal_in result ≡ row_fault cores place (task_of task.now) row.now }
{
    if row.core < 1 || row.core > cores {
        return Err(Refusal::WrongRow { place });
    }
    if has_cut_beyond(task, &row.cuts) {
        return Err(Refusal::WrongCut { place });
    }
    Ok(())
}

// One row for each task, and then the rows one by one.
fn examine_rows(table: &Sealed, rows: &[Row]) -> Result<(), Refusal>
    ensures { refusal_in result ≡ rows_refusal (sealed table.now) rows.now }
{
    let tasks = table.tasks();
    if rows.len() != tasks.len() {
        return Err(Refusal::WrongRow { place: 0 });
    }
    for (i, (task, row)) in tasks.iter().zip(rows).enumerate() {
        examine_row(table.cores(), task, row, i + 1)?;
    }
    Ok(())
}

// Task by task: no region is longer than the tasks before it on its core allow.
fn examine_regions<C: CoreTest>(test: &C, table: &Sealed, placed: &Placings) -> Result<(), Refusal>
    requires { list_of placed.now ≡ places (sealed table.now) (sealed table.now).tasks (rows_placed (list_of placed.now)) }
    ensures { refusal_in result ≡ region_refusal (C.limit test.now) (sealed table.now) 1 [] (sealed table.now).tasks (rows_placed (list_of placed.now)) }
{
    let mut before = Placings::default();
    for (i, (task, here)) in table.tasks().iter().zip(placed.as_slice()).enumerate() {
        let list = on_core(before.as_slice(), here.row.core);
        let longest = test.longest(list.as_slice(), task.deadline);
        if !regions_within(task, &here.row.cuts, longest) {
            return Err(Refusal::LongRegion { place: i + 1 });
        }
        let _ = before.push(*here);
    }
    Ok(())
}

// The whole plan: its rows, then their regions, then the lists of the cores.
pub fn examine_plan<C: CoreTest>(test: &C, table: &Sealed, rows: &[Row]) -> Result<(), Refusal>
    ensures { Examined (C.accepts test.now) (C.limit test.now) (sealed table.now) rows.now result }
{
    examine_rows(table, rows)?;
    let placed = place_all(table, rows);
    examine_regions(test, table, &placed)?;
    match first_overloaded(test, table.cores(), &placed) {
        None => Ok(()),
        Some(core) => Err(Refusal::OverloadedCore {
            core: core as usize,
        }),
    }
}
