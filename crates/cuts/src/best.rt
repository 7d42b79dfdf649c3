// The cuts that are chosen under a limit, by a backward programme over the points of a task.
ghost use Rattle.std.specs.Prelude.{◌≡◌, ◌+◌, ◌<◌, ◌≤◌, true, length, IfSome};
ghost use Rattle.tasks.specs.Tasks.{in_range};
ghost use Rattle.tasks.specs.Stored.{task_of};
ghost use Rattle.cuts.specs.Best.{BestCuts};
ghost use Rattle.cuts.specs.Dynamic.{Known, best_at, cheaper_of, with_cut};

use crate::flags::is_within;
use crate::types::Cuts;
use tasks::{MAX_POINTS, Task};

// The cheaper of two, and the second where they cost the same.
fn cheaper(a: Option<Cuts>, b: Option<Cuts>) -> Option<Cuts>
    ensures { result ≡ cheaper_of a b }
{
    match (a, b) {
        (Some(first), Some(second)) if first.cost < second.cost => a,
        _ => b.or(a),
    }
}

// One more cut, at `point`.
fn with_cut(cuts: Option<Cuts>, point: usize, cost: u32) -> Option<Cuts>
    requires place { point < 15 }
    requires small { cost ≤ 1000000 }
    requires bound { IfSome cuts (λ c. c.cost ≤ 15000000) }
    ensures { result ≡ with_cut point cost cuts }
{
    let mut more = cuts?;
    more.flags[point] = true;
    more.cost += cost;
    Some(more)
}

// The backward programme, from the last point of the task back to point `from`.
#[derive(Drop)]
struct Programme<'a> {
    task: &'a Task,
    limit: Option<u32>,
    from: usize,
    // for each point from there on, the best cuts from it on with a cut there;
    // an array and no `Bounded`, since it fills from the back, at the place of each point
    memo: [Option<Cuts>; MAX_POINTS],
    ghost ranges: { in_range (task_of task.now) ≡ true },
    ghost place: { from ≤ length (task_of task.now).points },
    ghost known: { Known limit (task_of task.now) memo from },
}

impl<'a> Programme<'a> {
    // The best cuts from here on, where the region under way has `start` ticks before it.
    // It ends at one of the points, with a cut that the memo goes on from, or with the task.
    fn best(&self, start: u32) -> Option<Cuts>
        requires { start ≤ 2000000 }
        ensures { result ≡ best_at self.now.limit (task_of self.now.task.now) start self.now.from }
    {
        let following = &self.task.blocks.as_slice()[self.from + 1..];
        let mut length = start;
        let mut found = None;
        for (block, ending) in following.iter().zip(&self.memo[self.from..]) {
            if is_within(self.limit, length) {
                found = cheaper(found, *ending);
            }
            length += *block;
        }
        if is_within(self.limit, length) {
            found = cheaper(found, Some(Cuts::default()));
        }
        found
    }

    // One point further back.
    fn step_back(&mut self)
        requires { 0 < self.old.from }
        ensures task { self.new.task ≡ self.old.task }
        ensures limit { self.new.limit ≡ self.old.limit }
        ensures from { self.new.from + 1 ≡ self.old.from }
    {
        let point = self.from - 1;
        let cost = self.task.points.at(point);
        let rest = self.best(cost + self.task.blocks.at(self.from));
        self.memo[point] = with_cut(rest, point, cost);
        self.from = point;
    }
}

// The cheapest cuts that keep every region of the task within the limit.
// Of those, the ones whose first region reaches furthest, then the second, and so on.
pub fn best_cuts(task: &Task, limit: Option<u32>) -> Option<Cuts>
    requires { in_range (task_of task.now) ≡ true }
    ensures best { BestCuts limit (task_of task.now) result }
    ensures bound { IfSome result (λ c. c.cost ≤ 15000000) }
{
    let mut programme = Programme {
        task,
        limit,
        from: task.points.len(),
        memo: [None; MAX_POINTS],
    };
    // the programme keeps its place itself, beside what its memory knows from there on
    while programme.from > 0 {
        programme.step_back();
    }
    programme.best(task.blocks.at(0))
}

#[cfg(test)]
mod tests {
    use crate::best::best_cuts;
    use std::process::Abort;
    use std::test::Fail;
    use tasks::{Draft, Proposal};

    // The cost of the cuts that are chosen for a task, and whether it is cut at its first and its second point.
    fn chosen<'a>(
        rt: &impl Abort,
        blocks: &'a [u32],
        points: &'a [u32],
        limit: Option<u32>,
    ) -> Result<Option<(u32, bool, bool)>, Fail> {
        let mut draft = Draft::new();
        draft.add(&Proposal {
            id: 1,
            period: 1_000_000,
            deadline: 1_000_000,
            blocks,
            points,
        })?;
        let table = draft.seal();
        let tasks = table.tasks();
        assert!(rt; tasks.len() == 1);
        Ok(best_cuts(&tasks[0], limit).map(|cuts| (cuts.cost, cuts.flags[0], cuts.flags[1])))
    }

    #[test]
    fn cost_falls_on_the_later_region(rt: HostRuntime) -> Result<(), Fail> {
        assert_eq!(rt;
            chosen(&rt, &[3, 1], &[1], Some(3))?,
            Some((1, true, false))
        );
        assert_eq!(rt; chosen(&rt, &[1, 3], &[1], Some(3))?, None);
        Ok(())
    }

    #[test]
    fn regions_reach_far(rt: HostRuntime) -> Result<(), Fail> {
        assert_eq!(rt;
            chosen(&rt, &[2, 1, 1], &[0, 0], Some(3))?,
            Some((0, false, true))
        );
        assert_eq!(rt;
            chosen(&rt, &[2, 1, 1], &[0, 0], None)?,
            Some((0, false, false))
        );
        Ok(())
    }
}
