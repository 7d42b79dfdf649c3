// The running machine of the cabinet, how its jobs are read from outside, and the law that no unfinished job reaches its deadline.
#![tactic(auto)]

ghost use Rattle.machine.specs.Agreement.{ReadingAgrees};
ghost use Rattle.machine.specs.Law.{MachineNeverLate, SameClock};
ghost use Rattle.machine.specs.Assigning.{LawfulIsSchedulable};

pub mod types;

pub use types::{Answer, Assigned, Call, Event, Grant, Job, MAX_ROW, Slot};

// Under any list of calls, no job that the outside reading has as unfinished is at its deadline.
pub fn never_late()
    ensures { MachineNeverLate }
{}

// The outside reading has just the jobs that the records have.
pub fn reading_agrees()
    ensures { ReadingAgrees }
{}

// The clock of the outside reading is the machine's.
pub fn same_clock()
    ensures { SameClock }
{}

// A plan that is lawful under the EDF test assigns tasks that the machine can run in time.
pub fn lawful_is_schedulable()
    ensures { LawfulIsSchedulable }
{}
