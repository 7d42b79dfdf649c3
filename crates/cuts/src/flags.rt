// What a set of flags makes of a task: the cost of its cuts, and the lengths of its regions.
ghost use Rattle.std.specs.Prelude.{◌≡◌, ◌≤◌, true};
ghost use Rattle.tasks.specs.Tasks.{every, in_range};
ghost use Rattle.tasks.specs.Cuts.{cut_cost, regions, total};
ghost use Rattle.tasks.specs.Stored.{task_of};
ghost use Rattle.cuts.specs.Allowed.{cut_beyond, within};

use tasks::{MAX_POINTS, Task};

// Whether a region of `length` ticks is no longer than the limit.
pub(crate) fn is_within(limit: Option<u32>, length: u32) -> bool
    ensures { result ≡ within limit length }
{
    limit.is_none_or(|longest| length <= longest)
}

// What the cuts cost.
pub fn cut_cost(task: &Task, cuts: &[bool; MAX_POINTS]) -> u32
    requires { in_range (task_of task.now) ≡ true }
    ensures value { result ≡ cut_cost (task_of task.now) cuts.now }
    ensures bound { result ≤ 15000000 }
{
    // by index: a `zip` with `filter_map` and `sum` took twice the time
    let points = task.points.as_slice();
    let mut cost = 0;
    for j in 0..points.len() {
        if cuts[j] {
            cost += points[j];
        }
    }
    cost
}

// What the blocks run in all.
pub fn total_blocks(task: &Task) -> u32
    requires { in_range (task_of task.now) ≡ true }
    ensures value { result ≡ total (task_of task.now).blocks }
    ensures bound { result ≤ 16000000 }
{
    task.blocks.as_slice().iter().sum()
}

// Whether a cut is set after the last point of the task.
pub fn has_cut_beyond(task: &Task, cuts: &[bool; MAX_POINTS]) -> bool
    ensures { result ≡ cut_beyond (task_of task.now).points cuts.now }
{
    cuts.iter().skip(task.points.len()).any(|cut| *cut)
}

// Whether no region is longer than the limit.
pub fn regions_within(task: &Task, cuts: &[bool; MAX_POINTS], limit: Option<u32>) -> bool
    requires { in_range (task_of task.now) ≡ true }
    ensures { result ≡ every (within limit) (regions (task_of task.now) cuts.now) }
{
    // by index: `all` over `Regions` took 2.3 to 6.5 times the time
    let blocks = task.blocks.as_slice();
    let points = task.points.as_slice();
    let mut length = blocks[0];
    for j in 0..points.len() {
        if cuts[j] {
            if !is_within(limit, length) {
                return false;
            }
            length = points[j] + blocks[j + 1];
        } else {
            length += blocks[j + 1];
        }
    }
    is_within(limit, length)
}
