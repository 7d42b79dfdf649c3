// The walk over the regions: a region ends at the next cut, or with the task.
ghost use Rattle.std.specs.Prelude.{◌≡◌, true};
ghost use Rattle.tasks.specs.Tasks.{in_range};
ghost use Rattle.tasks.specs.Cuts.{regions};
ghost use Rattle.tasks.specs.Stored.{task_of};
ghost use Rattle.cuts.specs.Walk.{regions_left};

use super::Regions;
use tasks::{MAX_POINTS, Task};

impl<'a> Regions<'a> {
    pub fn new(task: &'a Task, cuts: &'a [bool; MAX_POINTS]) -> Self
        requires { in_range (task_of task.now) ≡ true }
        ensures { regions_left result ≡ regions (task_of task.now) cuts.now }
    {
        let mut blocks = task.blocks.as_slice().iter();
        Regions {
            under_way: blocks.next().copied(),
            gaps: blocks.zip(task.points.as_slice()).zip(cuts),
        }
    }
}

impl<'a> Iterator for Regions<'a> {
    ghost use Rattle.std.specs.Iterator.{YieldsFirst, item_count};
    ghost use Rattle.cuts.specs.Walk.{regions_left};

    type Item = u32;

    ghost next_gives = { YieldsFirst regions_left };

    ghost remaining = { item_count regions_left };

    fn next(&mut self) -> Option<u32> {
        let mut length = self.under_way.take()?;
        // no `for`: the gaps that are left are walked on by the next call
        while let Some(((block, point), cut)) = self.gaps.next() {
            if *cut {
                self.under_way = Some(*point + *block);
                return Some(length);
            }
            length += *block;
        }
        Some(length)
    }
}
