use bounded::Bounded;
use coretests::Entry;
use tasks::{MAX_POINTS, MAX_TASKS};

// Where a task goes: its core, and a flag for each point that a task may have.
#[derive(Clone, Copy, PartialEq, Eq, Debug, Default)]
pub struct Row {
    pub core: u32,
    pub cuts: [bool; MAX_POINTS],
}

// A task as its row places it: the row, what a core test sees of the task, and what its cuts add to the cost of the plan.
#[derive(Clone, Copy, Default)]
pub struct Placed {
    pub row: Row,
    pub entry: Entry,
    pub overhead: u64,
}

// Tasks on their cores, in table order: no more than a table has.
pub type Placings = Bounded<Placed, MAX_TASKS>;
