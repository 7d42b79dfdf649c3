// The plain part of a cabinet: a table of job records, the number of cores and the clock. The struct alone: specs/States names it.
ghost use Rattle.std.specs.Prelude.{◌≤◌};

use bounded::Bounded;
use machine::Slot;
use tasks::MAX_TASKS;

mod calls;

// The end of the clock.
pub const CLOCK_END: u64 = 1_000_000_000_000;

#[derive(Drop)]
pub struct Plain {
    pub slots: Bounded<Slot, MAX_TASKS>,
    pub cores: u32,
    pub clock: u64,
    ghost few: { cores ≤ 8 },
    ghost within: { clock ≤ 1000000000000 },
}
