ghost use Rattle.std.specs.Prelude.{◌≡◌, ◌≢◌, ◌+◌, ◌-◌, ◌^◌, min, max, Some, None};
ghost use Rattle.std.specs.Option.{unwrap_or};

// Watches the jobs of one place by its releases and by the rows in which it stands, without a look at the cabinet.
#[derive(Clone, Copy)]
pub struct Watcher {
    // the ticks of one job, all regions at full length
    load: u32,
    // the clock of the last release, and in how many rows the place has stood since; no place stands in a row before its first release
    released: u64,
    stood: u32,
    jobs: u64,
    response: Option<u64>,
}

impl Watcher {
    pub fn new(load: u32) -> Watcher
        ensures load { result.load ≡ load }
        ensures jobs { result.jobs ≡ 0 }
        ensures response { result.response ≡ None }
    {
        Watcher {
            load,
            released: 0,
            stood: 0,
            jobs: 0,
            response: None,
        }
    }

    pub fn release(&mut self, clock: u64)
        ensures { self.new ≡ record { load = self.old.load; released = clock; stood = 0; jobs = self.old.jobs; response = self.old.response } }
    {
        self.released = clock;
        self.stood = 0;
    }

    // The place stood in the row of the tick that ended at `clock`.
    pub fn stand(&mut self, clock: u64)
        ensures stood { self.new.stood ≡ min (self.old.stood + 1) (2 ^ 32 - 1) }
        ensures goes_on { self.new.stood ≢ self.old.load → (self.new.jobs ≡ self.old.jobs) × (self.new.response ≡ self.old.response) }
        ensures ends { self.new.stood ≡ self.old.load → self.new.jobs ≡ min (self.old.jobs + 1) (2 ^ 64 - 1) }
        ensures longest { self.new.stood ≡ self.old.load → self.new.response ≡ Some (max (unwrap_or self.old.response 0) (clock - self.old.released)) }
        ensures kept { (self.new.load ≡ self.old.load) × (self.new.released ≡ self.old.released) }
    {
        self.stood = self.stood.saturating_add(1);
        if self.stood == self.load {
            self.jobs = self.jobs.saturating_add(1);
            self.response = self.response.max(Some(clock.saturating_sub(self.released)));
        }
    }

    // How many jobs have finished.
    pub fn jobs(&self) -> u64
        ensures { result ≡ self.now.jobs }
    {
        self.jobs
    }

    // The longest time from a release to the end of its job, none where no job has finished.
    pub fn response(&self) -> Option<u64>
        ensures { result ≡ self.now.response }
    {
        self.response
    }
}
