// The struct alone: specs/Promises names it.
use planning::Planned;
use tasks::Refusal;

// What a rehearsal came to: the plan under the core test, the plan under the pile, and how many calls were run on the latter.
#[derive(Clone, Copy)]
pub struct Rehearsal {
    pub planned: Result<Planned, Refusal>,
    pub piled: Result<Planned, Refusal>,
    // 0 without a plan as without a call: in neither case does an answer stand in the log
    pub ran: usize,
}
