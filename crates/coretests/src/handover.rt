// Time for a handover in each job, over another test.
ghost use Rattle.std.specs.Prelude.{◌≡◌, true, [], ◌∷◌};
ghost use Rattle.bounded.specs.Lists.{list_of};
ghost use Rattle.coretests.specs.Entries.{sound};
ghost use Rattle.coretests.specs.Layers.{clamped, raised, handed_over, raise};
ghost use Rattle.coretests.specs.Handovers.{handed_unsound, handed_zero, raised_lighter, handed_lighter, raised_push};
ghost use Rattle.coretests.specs.Soundness.{sound_lighter, sound_front};
ghost use Rattle.std.proofs.Common.{rules};

use crate::core_test::CoreTest;
use crate::entry::{Entry, MAX_ENTRIES};
use crate::sound_list::SoundList;
use bounded::Bounded;

// The greatest handover.
const MAX_HANDOVER: u32 = 10_000;

// The test below, asked with every load raised by `h`. A width of 16 bits keeps a raised load within its type.
#[derive(Clone, Copy)]
pub struct Handover<C> {
    below: C,
    h: u16,
}

impl<C: CoreTest> Handover<C> {
    // A handover from 0 to 10_000; a longer one is moved to that end.
    pub fn new(below: C, h: u32) -> Self
        ensures below { result.below ≡ below }
        ensures setting { result.h ≡ clamped 0 10000 h }
    {
        Handover {
            below,
            h: h.min(MAX_HANDOVER) as u16,
        }
    }
}

impl SoundList<'_> {
    // The list with every load raised by h.
    #[tactic(auto, using(crate::specs::Soundness::in_range_at))]
    fn raised(&self, h: u16) -> Bounded<Entry, MAX_ENTRIES>
        ensures { list_of result ≡ raised h self.now.entries.now }
    {
        let mut all = Bounded::default();
        for e in self.entries {
            // With `u32::from` in place of `as` the goal of this sum stayed open.
            let load = e.load + h as u32;
            // A sound list has room.
            let _ = all.push(Entry { load, ..*e });
        }
        all
    }
}

impl<C: CoreTest> CoreTest for Handover<C> {
    ghost accepts = { λ s xs. (sound xs ≡ true) × C.CoreTest.accepts s.below (raised s.h xs) };

    ghost limit = { λ s xs d. handed_over s.h (λ ys. C.CoreTest.limit s.below ys d) xs };

    ghost unsound = { Prim.search rules };

    ghost unsound_limit = { λ s xs d h. handed_unsound s.h (λ ys. C.CoreTest.limit s.below ys d) xs h };

    ghost outside = { λ s xs d h. handed_zero s.h (λ ys. C.CoreTest.limit s.below ys d) xs (C.CoreTest.outside s.below (raised s.h xs) d h) };

    ghost lighter = { λ s xs ys e m. (sound_lighter xs ys e m.0, C.CoreTest.lighter s.below (raised s.h xs) (raised s.h ys) (raised_lighter s.h xs ys e) m.1) };

    ghost longer = { λ s xs ys d e. handed_lighter s.h (λ zs. C.CoreTest.limit s.below zs d) (λ us vs l. C.CoreTest.longer s.below us vs d l) xs ys e };

    ghost fewer = { λ s xs x m. (sound_front xs (x ∷ []) m.0, C.CoreTest.fewer s.below (raised s.h xs) (raise s.h x) (rw (raised_push s.h xs x) at m.1)) };

    fn holds(&self, list: &[Entry]) -> bool {
        // A sound list is short and light enough to be raised.
        let Some(list) = SoundList::new(list) else {
            return false;
        };
        let raised = list.raised(self.h);
        self.below.holds(raised.as_slice())
    }

    #[tactic(auto, using(crate::specs::Handovers::handed_unsound))]
    fn longest(&self, list: &[Entry], d: u32) -> Option<u32> {
        let Some(list) = SoundList::new(list) else {
            return Some(0);
        };
        let raised = list.raised(self.h);
        let limit = self.below.longest(raised.as_slice(), d)?;
        Some(limit.saturating_sub(self.h as u32))
    }
}
