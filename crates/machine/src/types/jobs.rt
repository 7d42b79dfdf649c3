// What becomes of one job, and tests of one record.
ghost use Rattle.std.specs.Prelude.{◌≡◌};
ghost use Rattle.machine.specs.Slots.{region_at, after_region, step_job, after_event, is_idle, is_ready, is_inside, runs_on, inside_on, period_passed, unreleased};

use super::{Assigned, Event, Job, Slot};

impl Assigned {
    // The length of region k, 0 where there is no such region, as the machine has it.
    fn region_at(&self, k: usize) -> u32
        ensures { result ≡ region_at self.now k }
    {
        self.regions.as_slice().get(k).copied().unwrap_or(0)
    }

    // What becomes of a job whose region k ends.
    fn after_region(&self, k: usize) -> Job
        ensures { result ≡ after_region self.now k }
    {
        if k < self.regions.len().saturating_sub(1) {
            Job::Ready(k + 1)
        } else {
            Job::Idle
        }
    }

    // What an event does to a job: every change of a job goes through here.
    fn step(&self, job: Job, event: Event) -> Job
        ensures { result ≡ step_job self.now job event }
    {
        match (job, event) {
            (Job::Idle, Event::Release) => Job::Ready(0),
            (Job::Ready(k), Event::Enter) => Job::Inside(k, self.region_at(k)),
            (Job::Inside(k, left), Event::Tick) => {
                if left > 1 {
                    Job::Inside(k, left - 1)
                } else {
                    self.after_region(k)
                }
            }
            (Job::Inside(k, _), Event::Early) => self.after_region(k),
            // nothing else changes a job
            (_, _) => job,
        }
    }
}

impl Job {
    pub fn is_idle(self) -> bool
        ensures { result ≡ is_idle self }
    {
        self == Job::Idle
    }

    pub fn is_ready(self) -> bool
        ensures { result ≡ is_ready self }
    {
        matches!(self, Job::Ready(_))
    }

    pub fn is_inside(self) -> bool
        ensures { result ≡ is_inside self }
    {
        matches!(self, Job::Inside(_, _))
    }
}

impl Slot {
    // The record of a task that was never released.
    pub fn unreleased(task: Assigned) -> Slot
        ensures { result ≡ unreleased task }
    {
        Slot {
            task,
            job: Job::Idle,
            due: 0,
            last: None,
        }
    }

    // The record after an event.
    pub fn after_event(&self, event: Event) -> Slot
        ensures { result ≡ after_event event self.now }
    {
        Slot {
            job: self.task.step(self.job, event),
            ..*self
        }
    }

    // Whether a region of the job is under way on the core.
    pub fn is_inside_on(&self, core: u32) -> bool
        ensures { result ≡ inside_on core self.now }
    {
        self.runs_on(core) && self.job.is_inside()
    }

    pub fn runs_on(&self, core: u32) -> bool
        ensures { result ≡ runs_on core self.now }
    {
        self.task.core == core
    }

    // Whether a period has passed since the last accepted release, if there was one.
    pub fn has_period_passed(&self, clock: u64) -> bool
        ensures { result ≡ period_passed clock self.now.task self.now.last }
    {
        let period = u64::from(self.task.period);
        self.last
            .is_none_or(|time| period <= clock && time <= clock - period)
    }
}
