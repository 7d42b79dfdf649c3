// The calls on the plain part.
ghost use Rattle.std.specs.Prelude.{◌≡◌};
ghost use Rattle.bounded.specs.Lists.{list_of};
ghost use Rattle.machine.specs.Slots.{enter_all, row_of};
ghost use Rattle.cabinet.specs.States.{state_of, with_slots};
ghost use Rattle.cabinet.specs.Calls.{Releases, Ends, TicksBy, Answers};

use super::{CLOCK_END, Plain};
use crate::records::{end_core, enter_core, is_busy, place_on, slot_at, tick_all};
use bounded::Bounded;
use machine::{Answer, Call, Event, Grant, MAX_ROW, Slot};
use tasks::Refusal;

impl Plain {
    pub fn release(&mut self, place: usize) -> Result<(), Refusal>
        ensures { Releases (state_of self.old) place result (state_of self.new) }
    {
        let Some(slot) = slot_at(self.slots.as_slice(), place) else {
            return Err(Refusal::NoSuchPlace { place });
        };
        if !slot.has_period_passed(self.clock) {
            return Err(Refusal::EarlyRelease { place });
        }
        if !slot.job.is_idle() {
            return Err(Refusal::UnfinishedJob { place });
        }
        let released = Slot {
            due: self.clock + u64::from(slot.task.deadline),
            last: Some(self.clock),
            ..slot.after_event(Event::Release)
        };
        self.slots.set(place - 1, released);
        Ok(())
    }

    pub fn early(&mut self, core: u32) -> Result<(), Refusal>
        ensures { Ends (state_of self.old) core result (state_of self.new) }
    {
        let number = core as usize;
        if !(1..=self.cores).contains(&core) {
            return Err(Refusal::NoSuchCore { core: number });
        }
        if !is_busy(self.slots.as_slice(), core) {
            return Err(Refusal::NothingUnderWay { core: number });
        }
        end_core(&mut self.slots, core);
        Ok(())
    }

    // Each core on which no region is under way has its choice.
    fn enter_cores(&mut self)
        ensures { state_of self.new ≡ with_slots (state_of self.old) (enter_all self.old.cores (list_of self.old.slots)) }
    {
        for core in 1..=self.cores {
            enter_core(&mut self.slots, core);
        }
    }

    // Who is inside a region on each core.
    fn row(&self) -> Bounded<usize, MAX_ROW>
        ensures { list_of result ≡ row_of self.now.cores (list_of self.now.slots) }
    {
        let mut row = Bounded::new(0);
        for core in 1..=self.cores {
            let _ = row.push(place_on(self.slots.as_slice(), core));
        }
        row
    }

    // A tick for a row of this length: the row that it makes.
    pub fn tick(&mut self, width: usize) -> Result<Bounded<usize, MAX_ROW>, Refusal>
        ensures { TicksBy (state_of self.old) width result (state_of self.new) }
    {
        if self.clock >= CLOCK_END {
            return Err(Refusal::ClockEnded);
        }
        if width != self.cores as usize {
            return Err(Refusal::WrongRowLength);
        }
        self.enter_cores();
        let row = self.row();
        tick_all(&mut self.slots);
        self.clock += 1;
        Ok(row)
    }

    pub fn answer(&mut self, call: Call) -> Answer
        ensures { Answers (state_of self.old) call result (state_of self.new) }
    {
        match call {
            Call::Release { place } => self.release(place).map(|()| Grant::Done),
            Call::Early { core } => self.early(core).map(|()| Grant::Done),
            Call::Tick { width } => self.tick(width).map(Grant::Row),
        }
    }
}
