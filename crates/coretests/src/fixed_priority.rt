// Fixed priorities.
ghost use Rattle.std.specs.Prelude.{◌≡◌, ◌<◌, ◌≤◌, [], length, MatchOption, slice_index_or};
ghost use Rattle.coretests.specs.FixedPriority.{FixedAccepts, fixed_limit, least_tolerance};
ghost use Rattle.coretests.specs.Soundness.{blank};
ghost use Rattle.coretests.specs.Tolerances.{workload_of, tolerance_of};
ghost use Rattle.coretests.specs.Guard.{guard_unsound, guard_outside, guard_lighter};
ghost use Rattle.coretests.specs.FixedLaws.{fixed_lighter, least_lighter, fixed_front};
ghost use Rattle.std.proofs.Common.{rules};

use crate::core_test::CoreTest;
use crate::entry::Entry;
use crate::sound_list::SoundList;

impl SoundList<'_> {
    // The work before t of one job of the entry at k and of the entries before it, unless it is above the entry's deadline.
    #[tactic(auto, using(crate::specs::Soundness::front_in_range_at, crate::specs::Tolerances::workload_next))]
    fn workload_within(&self, k: usize, t: u32) -> Option<u32>
        requires { k < length self.now.entries.now }
        ensures { MatchOption result
            ((slice_index_or self.now.entries.now k blank).deadline < workload_of self.now.entries.now k t)
            (λ work. (work ≡ workload_of self.now.entries.now k t) × (work ≤ (slice_index_or self.now.entries.now k blank).deadline)) }
    {
        // One loop for this and `demand_within` would take the start, the part of the list and the age from outside, by a closure.
        let e = &self.entries[k];
        let mut left = u64::from(e.deadline).checked_sub(u64::from(e.load))?;
        for x in &self.entries[..k] {
            left = left.checked_sub(x.work(1, t))?;
        }
        Some(e.deadline - left as u32)
    }

    // The largest blocking that the entry at k tolerates behind the entries before it.
    #[tactic(auto, using(crate::specs::Soundness::in_range_at, crate::proofs::Found::search_start))]
    fn tolerance(&self, k: usize) -> Option<u32>
        requires { k < length self.now.entries.now }
        ensures { result ≡ tolerance_of self.now.entries.now k }
    {
        let deadline = self.entries[k].deadline;
        let mut found = None;
        let mut t = 1;
        while t <= deadline {
            let Some(work) = self.workload_within(k, t) else {
                return found;
            };
            found = found.max(t.checked_sub(work));
            // No moment from t to before the next one leaves room for more than is found.
            t = match found {
                Some(b) => work + b + 1,
                None => work,
            };
        }
        found
    }
}

// The test by tolerance: every entry must have room for some blocking, be it 0.
#[derive(Clone, Copy)]
pub struct FixedPriority;

impl CoreTest for FixedPriority {
    ghost accepts = { λ _ xs. FixedAccepts xs };

    ghost limit = { λ _ xs d. fixed_limit xs d };

    ghost unsound = { Prim.search rules };

    ghost unsound_limit = { λ s xs d h. guard_unsound xs d (least_tolerance [] xs) h };

    ghost outside = { λ s xs d h. guard_outside xs d (least_tolerance [] xs) h };

    ghost lighter = { λ s xs ys e m. fixed_lighter xs ys e m };

    ghost longer = { λ s xs ys d e. guard_lighter xs ys d (least_tolerance [] xs) (least_tolerance [] ys) e (least_lighter [] [] xs ys tt e) };

    ghost fewer = { λ s xs x m. fixed_front xs x m };

    fn holds(&self, list: &[Entry]) -> bool {
        let Some(list) = SoundList::new(list) else {
            return false;
        };
        (0..list.entries.len()).all(|k| list.tolerance(k).is_some())
    }

    #[tactic(auto, using(crate::specs::Guard::guard_closed))]
    fn longest(&self, list: &[Entry], d: u32) -> Option<u32> {
        let Some(list) = SoundList::asked(list, d) else {
            return Some(0);
        };
        (0..list.entries.len())
            .map(|k| list.tolerance(k).unwrap_or(0))
            .min()
    }
}
