// Clearing: a plan of any origin is accepted exactly if it is lawful under the EDF test.
#![tactic(auto)]

pub mod cleared;
pub mod examine;
mod loads;

pub use cleared::Cleared;
pub use cleared::methods::clear;
pub use examine::examine_plan;

#[cfg(test)]
mod tests {
    use crate::cleared::Cleared;
    use crate::cleared::methods::clear;
    use plans::Row;
    use std::test::Fail;
    use tasks::{Draft, MAX_POINTS, Proposal, Refusal, Sealed};

    // As in the tests of plan_cases, since those of two crates share no module.
    fn task<'a>(
        id: u32,
        period: u32,
        deadline: u32,
        blocks: &'a [u32],
        points: &'a [u32],
    ) -> Proposal<'a> {
        Proposal {
            id,
            period,
            deadline,
            blocks,
            points,
        }
    }

    fn pair(cores: u32, first: &Proposal<'_>, second: &Proposal<'_>) -> Result<Sealed, Refusal> {
        let mut draft = Draft::new();
        draft.new_draft(cores)?;
        draft.add(first)?;
        draft.add(second)?;
        Ok(draft.seal())
    }

    // A row that is cut at its first point or not.
    fn row(core: u32, cut: bool) -> Row {
        let mut cuts = [false; MAX_POINTS];
        cuts[0] = cut;
        Row { core, cuts }
    }

    // The number and place of the refusal, if there is one; and how many rows `cleared` then holds.
    fn told(
        table: &Sealed,
        rows: &[Row],
        cleared: &mut Cleared,
    ) -> (Result<(), (u8, usize)>, usize) {
        let answer = clear(table, rows, cleared).map_err(|refusal| (
            refusal.number(),
            refusal.at(),
        ));
        (answer, cleared.rows().len())
    }

    #[test]
    fn wrong_rows(rt: HostRuntime) -> Result<(), Fail> {
        let table = pair(
            2,
            &task(5, 20, 4, &[1], &[]),
            &task(7, 10, 10, &[3, 1], &[1]),
        )?;
        let mut cleared = Cleared::new();
        let whole = row(1, false);
        let cut = row(1, true);
        assert_eq!(rt; told(&table, &[whole], &mut cleared), (Err((10, 0)), 0));
        assert_eq!(rt;
            told(&table, &[whole, cut, cut], &mut cleared),
            (Err((10, 0)), 0)
        );
        assert_eq!(rt;
            told(&table, &[row(0, true), cut], &mut cleared),
            (Err((10, 1)), 0)
        );
        assert_eq!(rt;
            told(&table, &[whole, row(3, true)], &mut cleared),
            (Err((10, 2)), 0)
        );
        assert_eq!(rt;
            told(&table, &[cut, row(0, true)], &mut cleared),
            (Err((11, 1)), 0)
        );
        assert_eq!(rt; cleared.table().cores(), 1);
        Ok(())
    }

    #[test]
    fn long_region(rt: HostRuntime) -> Result<(), Fail> {
        // At t = 4 one tick of four is asked, so a region of 3 fits, and one of 4 does not.
        let fits = pair(1, &task(5, 20, 4, &[1], &[]), &task(7, 10, 10, &[3], &[]))?;
        let long = pair(1, &task(5, 20, 4, &[1], &[]), &task(8, 10, 10, &[4], &[]))?;
        let rows = [row(1, false), row(1, false)];
        let mut cleared = Cleared::new();
        assert_eq!(rt; told(&fits, &rows, &mut cleared), (Ok(()), 2));
        assert_eq!(rt; told(&long, &rows, &mut cleared), (Err((12, 2)), 2));
        let tasks = cleared.table().tasks();
        assert!(rt; tasks.len() == 2);
        assert_eq!(rt; tasks[1].id, 7);
        Ok(())
    }

    #[test]
    fn overloaded_core(rt: HostRuntime) -> Result<(), Fail> {
        // Regions of 1 fit, but at t = 6 the demand is 3 × 1 + 2 × 2.
        let table = pair(2, &task(1, 2, 2, &[1], &[]), &task(2, 3, 3, &[1, 1], &[0]))?;
        let mut cleared = Cleared::new();
        assert_eq!(rt;
            told(&table, &[row(1, false), row(1, true)], &mut cleared),
            (Err((13, 1)), 0)
        );
        assert_eq!(rt;
            told(&table, &[row(2, false), row(2, true)], &mut cleared),
            (Err((13, 2)), 0)
        );
        assert_eq!(rt;
            told(&table, &[row(2, false), row(2, false)], &mut cleared),
            (Err((12, 2)), 0)
        );
        assert_eq!(rt;
            told(&table, &[row(1, false), row(2, false)], &mut cleared),
            (Ok(()), 2)
        );
        Ok(())
    }
}
