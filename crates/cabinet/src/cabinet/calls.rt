// The calls of a cabinet.
ghost use Rattle.std.specs.Prelude.{◌≡◌, ◌<◌, IfSome};
ghost use Rattle.machine.specs.Machine.{slot_at};
ghost use Rattle.cabinet.specs.Calls.{Releases, Ends, Ticks, Answers, Runs};
ghost use Rattle.cabinet.specs.Cabinets.{state, Loaded, due_of};

use super::Cabinet;
use crate::loading::{assign_all, started};
use crate::records::slot_at;
use clearing::Cleared;
use machine::{Answer, Call};
use tasks::Refusal;

impl Cabinet {
    // A cabinet for the tasks of the cleared plan, with nothing released. A start beyond the end of the clock is taken as the end.
    pub fn load(plan: Cleared, start: u64) -> Cabinet
        ensures { Loaded plan start (state result) }
    {
        let tasks = assign_all(plan.table(), plan.rows());
        Cabinet {
            plain: started(&tasks, plan.table().cores(), start),
        }
    }

    // Begins a job of the task at the place.
    pub fn release(&mut self, place: usize) -> Result<(), Refusal>
        ensures { Releases (state self.old) place result (state self.new) }
    {
        self.plain.release(place)
    }

    // Ends the region under way on the core.
    pub fn early(&mut self, core: u32) -> Result<(), Refusal>
        ensures { Ends (state self.old) core result (state self.new) }
    {
        self.plain.early(core)
    }

    // Lets each core run for a tick, and writes into the row who ran there. A refusal leaves the row as it was.
    pub fn tick(&mut self, row: &mut [usize]) -> Result<(), Refusal>
        ensures { Ticks (state self.old) row.old result (state self.new) row.new }
    {
        let ran = self.plain.tick(row.len())?;
        row.copy_from_slice(ran.as_slice());
        Ok(())
    }

    // Any one call.
    pub fn answer(&mut self, call: Call) -> Answer
        ensures { Answers (state self.old) call result (state self.new) }
    {
        self.plain.answer(call)
    }

    // The calls one after another, as far as the log has room for their answers; tells how many.
    pub fn run(&mut self, calls: &[Call], log: &mut [Answer]) -> usize
        ensures { Runs (state self.old) calls.now log.old result (state self.new) log.new }
    {
        let count = calls.len().min(log.len());
        for (i, call) in calls[..count].iter().enumerate() {
            // written by index: a zip with the log's `iter_mut` would tell only the log's length afterwards
            log[i] = self.answer(*call);
        }
        count
    }

    pub fn clock(&self) -> u64
        ensures { result ≡ (state self.now).clock }
    {
        self.plain.clock
    }

    // The deadline of the place's job, unless it is idle. The clock is always below it.
    pub fn due(&self, place: usize) -> Option<u64>
        ensures value { result ≡ due_of (slot_at place (state self.now).slots) }
        ensures later { IfSome result (λ d. (state self.now).clock < d) }
    {
        let slot = slot_at(self.plain.slots.as_slice(), place)?;
        (!slot.job.is_idle()).then_some(slot.due)
    }
}
