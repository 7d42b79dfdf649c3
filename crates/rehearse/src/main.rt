// Reads a sheet of tasks from standard input, plans it under EDF, and runs the plan from clock 0, with every task released
// whenever the rules grant it. Prints the row of each tick, and for each task the jobs that finished and their longest response.
#![tactic(auto)]

mod watcher;

use console::read_front;
use coretests::Edf;
use machine::{Answer, Call, Grant};
use plans::place_all;
use rehearsals::rehearse;
use sheet::read_sheet;
use std::alloc::{AllocError, Global};
use std::io::Write;
use tasks::{Draft, Refusal, Sealed};
use watcher::Watcher;
use writer::Tell;

// A longer span is not run to its end.
const MAX_TICKS: u32 = 200;

// The releases of all places before each tick, for one span.
fn calls_of(heap: Global, table: &Sealed) -> Result<Vec<Call>, AllocError> {
    let width = table.cores() as usize;
    let places = table.tasks().len();
    let mut calls = Vec::new(heap);
    for _ in 0..table.span().min(MAX_TICKS) {
        for place in 1..=places {
            calls.push(Call::Release { place })?;
        }
        calls.push(Call::Tick { width })?;
    }
    Ok(calls)
}

fn print_row(rt: &HostRuntime, row: &[usize]) -> anyhow::Result<()> {
    print!(rt; "(row")?;
    for place in row {
        print!(rt; " {place}")?;
    }
    Ok(println!(rt; ")")?)
}

// The watcher of a place, if there is such a place.
fn watcher_at(watchers: &mut [Watcher], place: usize) -> Option<&mut Watcher> {
    watchers.get_mut(place.checked_sub(1)?)
}

// The rows one by one, as the watchers of the places see them.
fn print_rows(
    rt: &HostRuntime,
    calls: &[Call],
    log: &[Answer],
    watchers: &mut [Watcher],
) -> anyhow::Result<()> {
    let mut clock = 0;
    for (call, answer) in calls.iter().zip(log) {
        match (*call, *answer) {
            (Call::Release { place }, Ok(Grant::Done)) => {
                if let Some(watcher) = watcher_at(watchers, place) {
                    watcher.release(clock);
                }
            }
            (Call::Tick { .. }, Ok(Grant::Row(row))) => {
                clock = clock.saturating_add(1);
                print_row(rt, row.as_slice())?;
                for place in row.as_slice() {
                    if let Some(watcher) = watcher_at(watchers, *place) {
                        watcher.stand(clock);
                    }
                }
            }
            _ => {}
        }
    }
    Ok(())
}

fn print_refusal(rt: &HostRuntime, refusal: &Refusal) -> anyhow::Result<()> {
    Ok(rt.stdout().write_all(refusal.text().as_slice())?)
}

fn run(rt: &HostRuntime, table: &Sealed) -> anyhow::Result<()> {
    let calls = calls_of(rt.alloc(), table)?;
    let mut log = vec![in rt.alloc(); Ok(Grant::Done); calls.len()]?;
    let rehearsal = rehearse(table, &Edf, &Edf, 0, calls.as_slice(), log.as_mut_slice());
    let planned = match rehearsal.piled {
        Ok(planned) => planned,
        Err(refusal) => return print_refusal(rt, &refusal),
    };
    let placed = place_all(table, planned.rows.as_slice());
    let mut watchers: Vec<Watcher> = placed
        .as_slice()
        .iter()
        .map(|placed| Watcher::new(placed.entry.load))
        .collect(rt.alloc())?;
    print_rows(
        rt,
        calls.as_slice(),
        log.as_slice(),
        watchers.as_mut_slice(),
    )?;
    for (task, watcher) in table.tasks().iter().zip(watchers.as_slice()) {
        let (id, deadline) = (task.id, task.deadline);
        let (jobs, response) = (watcher.jobs(), watcher.response().unwrap_or(0));
        println!(rt; "(task (id {id}) (jobs {jobs}) (response {response}) (deadline {deadline}))")?;
    }
    Ok(())
}

fn main(rt: HostRuntime) -> anyhow::Result<()> {
    let sheet = read_front(rt.alloc(), rt.stdin())?;
    let mut draft = Draft::new();
    match read_sheet(sheet.as_slice(), &mut draft) {
        Ok(()) => run(&rt, &draft.seal()),
        Err(refusal) => print_refusal(&rt, &refusal),
    }
}
