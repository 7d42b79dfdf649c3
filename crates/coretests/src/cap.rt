// A cap on the limits of another test.
ghost use Rattle.std.specs.Prelude.{◌≡◌};
ghost use Rattle.coretests.specs.Layers.{clamped, capped};
ghost use Rattle.std.proofs.Common.{rules};

use crate::core_test::CoreTest;
use crate::entry::{Entry, MAX_TICKS};

// The least cap.
const MIN_CAP: u32 = 1;

// The test below, with no limit longer than the cap `c`.
#[derive(Clone, Copy)]
pub struct Cap<C> {
    below: C,
    c: u32,
}

impl<C: CoreTest> Cap<C> {
    // A cap from 1 to 1_000_000; one outside is moved to the nearer end.
    pub fn new(below: C, c: u32) -> Self
        ensures below { result.below ≡ below }
        ensures setting { result.c ≡ clamped 1 1000000 c }
    {
        Cap {
            below,
            c: c.clamp(MIN_CAP, MAX_TICKS),
        }
    }
}

impl<C: CoreTest> CoreTest for Cap<C> {
    ghost accepts = { λ s xs. C.CoreTest.accepts s.below xs };

    ghost limit = { λ s xs d. capped s.c (C.CoreTest.limit s.below xs d) };

    ghost unsound = { Prim.search rules };

    ghost unsound_limit = { Prim.search rules };

    ghost outside = { Prim.search rules };

    ghost lighter = { Prim.search rules };

    ghost longer = { Prim.search rules };

    ghost fewer = { Prim.search rules };

    fn holds(&self, list: &[Entry]) -> bool {
        self.below.holds(list)
    }

    fn longest(&self, list: &[Entry], d: u32) -> Option<u32> {
        let limit = self.below.longest(list, d);
        Some(limit.map_or(self.c, |limit| limit.min(self.c)))
    }
}
