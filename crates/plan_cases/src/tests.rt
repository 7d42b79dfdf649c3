// The worked cases, planned by the planner itself. A task is written (id, period, deadline, blocks, costs of points).
use coretests::{Cap, CoreTest, Edf, FixedPriority, Handover};
use planning::plan;
use plans::Row;
use std::process::Abort;
use std::test::Fail;
use tasks::{Draft, MAX_POINTS, Proposal, Refusal, Sealed};

// As in the tests of clearing, since those of two crates share no module.
fn task<'a>(
    id: u32,
    period: u32,
    deadline: u32,
    blocks: &'a [u32],
    points: &'a [u32],
) -> Proposal<'a> {
    Proposal {
        id,
        period,
        deadline,
        blocks,
        points,
    }
}

fn table(cores: u32, tasks: &[Proposal<'_>]) -> Result<Sealed, Refusal> {
    let mut draft = Draft::new();
    draft.new_draft(cores)?;
    for task in tasks {
        draft.add(task)?;
    }
    Ok(draft.seal())
}

// The plan has this cost, and for each task its core and whether it is cut at point 1; no case has another cut.
fn chosen<C: CoreTest>(
    rt: &impl Abort,
    table: &Sealed,
    test: &C,
    cost: u64,
    rows: &[(u32, bool)],
) -> Result<(), Fail> {
    let planned = plan(table, test)?;
    assert_eq!(rt; planned.cost, cost);
    let all = planned.rows.as_slice();
    assert_eq!(rt; all.len(), rows.len());
    for (row, (core, cut)) in all.iter().zip(rows) {
        let mut cuts = [false; MAX_POINTS];
        cuts[0] = *cut;
        assert_eq!(rt; *row, Row { core: *core, cuts });
    }
    Ok(())
}

// Plan is refused by 9 at 0.
fn refused<C: CoreTest>(rt: &impl Abort, table: &Sealed, test: &C) {
    let told = plan(table, test)
        .map(|planned| planned.cost)
        .map_err(|refusal| (refusal.number(), refusal.at()));
    assert_eq!(rt; told, Err((9, 0)));
}

// Behind the urgent task the longest region is 3.
#[test]
fn regions(rt: HostRuntime) -> Result<(), Fail> {
    let urgent = task(1, 20, 4, &[1], &[]);
    chosen(
        &rt,
        &table(1, &[urgent, task(2, 10, 10, &[3], &[])])?,
        &Edf,
        0,
        &[(1, false), (1, false)],
    )?;
    refused(&rt, &table(1, &[urgent, task(2, 10, 10, &[4], &[])])?, &Edf);
    chosen(
        &rt,
        &table(1, &[urgent, task(2, 10, 10, &[3, 1], &[1])])?,
        &Edf,
        2,
        &[(1, false), (1, true)],
    )?;
    refused(
        &rt,
        &table(1, &[urgent, task(2, 10, 10, &[1, 3], &[1])])?,
        &Edf,
    );
    Ok(())
}

// The first two tasks ask for 7 ticks of 6, the next two for 12 of 12; nothing bounds a region at equal deadlines.
#[test]
fn full_cores(rt: HostRuntime) -> Result<(), Fail> {
    let over = [task(1, 2, 2, &[1], &[]), task(2, 3, 3, &[1, 1], &[0])];
    refused(&rt, &table(1, &over)?, &Edf);
    chosen(&rt, &table(2, &over)?, &Edf, 0, &[(1, false), (2, false)])?;
    let full = table(1, &[task(1, 4, 4, &[2], &[]), task(2, 6, 6, &[2, 1], &[0])])?;
    chosen(&rt, &full, &Edf, 0, &[(1, false), (1, true)])?;
    refused(&rt, &full, &FixedPriority);
    let equal = [task(1, 10, 4, &[2], &[]), task(2, 10, 4, &[2], &[])];
    chosen(&rt, &table(1, &equal)?, &Edf, 0, &[(1, false), (1, false)])
}

// The longest region is 1 under the handover and 2 under the cap.
#[test]
fn layers(rt: HostRuntime) -> Result<(), Fail> {
    let urgent = task(1, 20, 4, &[1], &[]);
    refused(
        &rt,
        &table(1, &[urgent, task(2, 10, 10, &[3], &[])])?,
        &Handover::new(Edf, 1),
    );
    chosen(
        &rt,
        &table(1, &[urgent, task(2, 10, 10, &[2, 1], &[0])])?,
        &Cap::new(Edf, 2),
        0,
        &[(1, false), (1, true)],
    )
}

#[test]
fn no_task(rt: HostRuntime) -> Result<(), Fail> {
    let empty = Draft::new().seal();
    chosen(&rt, &empty, &Edf, 0, &[])?;
    chosen(&rt, &empty, &FixedPriority, 0, &[])?;
    chosen(&rt, &empty, &Cap::new(Edf, 2), 0, &[])?;
    chosen(&rt, &empty, &Handover::new(Edf, 1), 0, &[])
}
