ghost use Rattle.std.specs.Prelude.{◌≡◌, ◌==◌, [], nat_le};
ghost use Rattle.std.specs.List.{list_any, prefix_len};
ghost use Rattle.bounded.specs.Lists.{list_of};

use crate::table::MAX_TASKS;
use crate::task::Task;
use bounded::Bounded;

// The tasks of an empty table.
pub fn no_tasks() -> Bounded<Task, MAX_TASKS>
    ensures { list_of result ≡ [] }
{
    // fills the places, and is never read
    Bounded::new(Task {
        id: 0,
        period: 1,
        deadline: 1,
        blocks: Bounded::new(0),
        points: Bounded::new(0),
    })
}

// Whether a task has the id.
pub fn has_id(tasks: &[Task], id: u32) -> bool
    ensures { result ≡ list_any (λ t. t.id == id) tasks.now }
{
    tasks.iter().any(|t| t.id == id)
}

// How many tasks stand before a new one with the deadline: those whose own is not later.
pub fn place_for(tasks: &[Task], deadline: u32) -> usize
    ensures { result ≡ prefix_len (λ t. nat_le t.deadline deadline) tasks.now }
{
    tasks.iter().take_while(|t| t.deadline <= deadline).count()
}
