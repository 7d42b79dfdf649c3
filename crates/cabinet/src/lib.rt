// The running cabinet: it is loaded with a cleared plan, and each call does what the machine does.
#![tactic(auto)]

pub mod cabinet;
mod loading;
mod plain;
mod records;

pub use cabinet::Cabinet;

#[cfg(test)]
mod tests {
    use crate::cabinet::Cabinet;
    use clearing::{Cleared, clear};
    use machine::{Call, Grant};
    use plans::Row;
    use std::test::Fail;
    use tasks::{Draft, MAX_POINTS, Proposal, Refusal};

    const END: u64 = 1_000_000_000_000;

    // On one core 20/4 [1;] at place 1 and, at place 2, a task 10/10 with these blocks and points, cut at its first point or not.
    fn loaded(blocks: &[u32], points: &[u32], cut: bool, start: u64) -> Result<Cabinet, Refusal> {
        let mut draft = Draft::new();
        draft.add(&Proposal {
            id: 5,
            period: 20,
            deadline: 4,
            blocks: &[1],
            points: &[],
        })?;
        draft.add(&Proposal {
            id: 7,
            period: 10,
            deadline: 10,
            blocks,
            points,
        })?;
        let whole = Row {
            core: 1,
            cuts: [false; MAX_POINTS],
        };
        let mut second = whole;
        second.cuts[0] = cut;
        let mut cleared = Cleared::new();
        clear(&draft.seal(), &[whole, second], &mut cleared)?;
        Ok(Cabinet::load(cleared, start))
    }

    // A refusal as its number and place.
    fn told(res: Result<(), Refusal>) -> Result<(), (u8, usize)> {
        res.map_err(|refusal| (refusal.number(), refusal.at()))
    }

    // The place that a tick lets run.
    fn ran(cabinet: &mut Cabinet) -> Result<usize, Refusal> {
        let mut row = [9];
        cabinet.tick(&mut row)?;
        Ok(row[0])
    }

    #[test]
    fn urgent_job_waits_for_a_regions_end(rt: HostRuntime) -> Result<(), Fail> {
        let mut cabinet = loaded(&[3], &[], false, 0)?;
        assert_eq!(rt; told(cabinet.release(2)), Ok(()));
        assert_eq!(rt; ran(&mut cabinet)?, 2);
        assert_eq!(rt; told(cabinet.release(1)), Ok(()));
        assert_eq!(rt; (cabinet.due(1), cabinet.due(2)), (Some(5), Some(10)));
        assert_eq!(rt; ran(&mut cabinet)?, 2);
        assert_eq!(rt; ran(&mut cabinet)?, 2);
        assert_eq!(rt; ran(&mut cabinet)?, 1);
        assert_eq!(rt; (cabinet.due(1), cabinet.due(2)), (None, None));
        for _ in 4..20 {
            assert_eq!(rt; ran(&mut cabinet)?, 0);
        }
        assert_eq!(rt; cabinet.clock(), 20);
        assert_eq!(rt; told(cabinet.release(1)), Err((15, 1)));
        assert_eq!(rt; ran(&mut cabinet)?, 0);
        assert_eq!(rt; told(cabinet.release(1)), Ok(()));
        Ok(())
    }

    #[test]
    fn early_ends_one_region(rt: HostRuntime) -> Result<(), Fail> {
        let mut cabinet = loaded(&[3, 1], &[1], true, 0)?;
        assert_eq!(rt; told(cabinet.release(2)), Ok(()));
        assert_eq!(rt; told(cabinet.early(1)), Err((18, 1)));
        assert_eq!(rt; ran(&mut cabinet)?, 2);
        assert_eq!(rt; told(cabinet.early(1)), Ok(()));
        assert_eq!(rt; told(cabinet.early(1)), Err((18, 1)));
        // the second region: a block of 1 and the cut's cost
        assert_eq!(rt; ran(&mut cabinet)?, 2);
        assert_eq!(rt; ran(&mut cabinet)?, 2);
        assert_eq!(rt; ran(&mut cabinet)?, 0);
        Ok(())
    }

    #[test]
    fn clock_stops_at_its_end(rt: HostRuntime) -> Result<(), Fail> {
        let mut before = loaded(&[3], &[], false, END - 1)?;
        assert_eq!(rt; ran(&mut before)?, 0);
        assert_eq!(rt; told(before.tick(&mut [9])), Err((19, 0)));
        let mut beyond = loaded(&[3], &[], false, END + 1)?;
        assert_eq!(rt; beyond.clock(), END);
        assert_eq!(rt; told(beyond.tick(&mut [])), Err((19, 0)));
        assert_eq!(rt; told(beyond.release(1)), Ok(()));
        assert_eq!(rt; beyond.due(1), Some(END + 4));
        Ok(())
    }

    #[test]
    fn wrong_arguments(rt: HostRuntime) -> Result<(), Fail> {
        let mut cabinet = loaded(&[3], &[], false, 0)?;
        let mut row = [7, 8];
        assert_eq!(rt; told(cabinet.tick(&mut row)), Err((20, 0)));
        assert_eq!(rt; (row[0], row[1]), (7, 8));
        assert_eq!(rt; told(cabinet.tick(&mut [])), Err((20, 0)));
        assert_eq!(rt; cabinet.clock(), 0);
        assert_eq!(rt; told(cabinet.release(0)), Err((14, 0)));
        assert_eq!(rt; told(cabinet.release(3)), Err((14, 3)));
        assert_eq!(rt; told(cabinet.early(0)), Err((17, 0)));
        assert_eq!(rt; told(cabinet.early(2)), Err((17, 2)));
        Ok(())
    }

    #[test]
    fn run_stops_at_the_end_of_the_log(rt: HostRuntime) -> Result<(), Fail> {
        let mut cabinet = loaded(&[3], &[], false, 0)?;
        let tick = Call::Tick { width: 1 };
        let calls = [Call::Release { place: 2 }, tick, tick];
        let mut log = [Ok(Grant::Done); 2];
        assert_eq!(rt; cabinet.run(&calls, &mut log), 2);
        assert_eq!(rt; cabinet.clock(), 1);
        let mut longer = [Ok(Grant::Done); 4];
        assert_eq!(rt; cabinet.run(&calls, &mut longer), 3);
        assert_eq!(rt; cabinet.clock(), 3);
        assert!(rt; matches!(longer[0], Err(_)));
        assert!(rt; matches!(longer[2], Ok(Grant::Row(_))));
        assert!(rt; matches!(longer[3], Ok(Grant::Done)));
        Ok(())
    }
}
