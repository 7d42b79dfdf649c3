// The records of the machine, and what is said to it and by it. The types alone: specs/ names them.
use bounded::Bounded;
use tasks::{MAX_BLOCKS, Refusal};

mod jobs;

// The longest row of a tick: one number for each core that a cabinet may have.
pub const MAX_ROW: usize = 8;

// A task as a plan assigns it to a core, with the lengths of its regions.
#[derive(Clone, Copy, Default)]
pub struct Assigned {
    pub core: u32,
    // the least gap between two releases
    pub period: u32,
    // counted from the release
    pub deadline: u32,
    pub regions: Bounded<u32, MAX_BLOCKS>,
}

// What a job is doing. Its regions count from 0.
#[derive(Clone, Copy, PartialEq, Eq, Debug, Default)]
pub enum Job {
    // nothing: it was never released, or its last region is done
    #[default]
    Idle,
    // it waits to enter this region
    Ready(usize),
    // it is inside this region, with so many ticks left
    Inside(usize, u32),
}

// The job record of one place.
#[derive(Clone, Copy, Default)]
pub struct Slot {
    pub task: Assigned,
    pub job: Job,
    // the deadline of the job, as a clock; it stands beside the job and not in it, so that what an event does to a job
    // need not carry it along
    pub due: u64,
    // the clock of the task's last accepted release
    pub last: Option<u64>,
}

// What may happen to a job: its release, its entry into a region, a tick of that region, and the region's early end.
#[derive(Clone, Copy)]
pub enum Event {
    Release,
    Enter,
    Tick,
    Early,
}

// A call to the cabinet; the width of a tick is the length of the row that the caller lends.
#[derive(Clone, Copy)]
pub enum Call {
    Release { place: usize },
    Early { core: u32 },
    Tick { width: usize },
}

// What a granted call gives: nothing more for a release or an early, and its row for a tick.
#[derive(Clone, Copy)]
pub enum Grant {
    Done,
    Row(Bounded<usize, MAX_ROW>),
}

// What the cabinet answers.
pub type Answer = Result<Grant, Refusal>;
