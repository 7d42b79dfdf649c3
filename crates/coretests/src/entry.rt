// The entries of a core, and which lists of them are sound.
ghost use Rattle.std.specs.Prelude.{◌≡◌, ◌+◌, ◌-◌, ◌*◌, ◌/◌, ◌≤◌};
ghost use Rattle.coretests.specs.Entries.{in_range, sound, askable};
ghost use Rattle.coretests.specs.Soundness.{InRange};

use crate::sound_list::SoundList;

pub mod periods;

// No list with more entries is sound.
pub const MAX_ENTRIES: usize = 24;

// No period, span or asked deadline is longer.
pub const MAX_TICKS: u32 = 1_000_000;

// No load of a sound list is greater.
pub const MAX_LOAD: u32 = 1_000_000_000;

// What a core test sees of a task.
#[derive(Clone, Copy, Default)]
pub struct Entry {
    pub period: u32,
    pub deadline: u32,
    pub load: u32,
}

impl Entry {
    pub fn in_range(&self) -> bool
        ensures { result ≡ in_range self.now }
    {
        (1..=MAX_TICKS).contains(&self.period)
            && (1..=self.period).contains(&self.deadline)
            && self.load <= MAX_LOAD
    }

    // The load of each job that is `age` ticks old or older at t, where a job begins at 0 and after every period.
    pub(crate) fn work(&self, age: u32, t: u32) -> u64
        requires in_range { InRange self.now }
        requires age_small { age ≤ self.now.period }
        ensures value { result ≡ self.now.load * ((t + self.now.period - age) / self.now.period) }
        ensures bound { result ≤ 4295967295000000000 }
    {
        let period = self.period as u64;
        self.load as u64 * ((t as u64 + period - age as u64) / period)
    }
}

pub fn is_sound(list: &[Entry]) -> bool
    ensures { result ≡ sound list.now }
{
    SoundList::new(list).is_some()
}

// Whether the list is sound and the asked deadline in range.
pub fn is_askable(list: &[Entry], d: u32) -> bool
    ensures { result ≡ askable list.now d }
{
    SoundList::asked(list, d).is_some()
}
