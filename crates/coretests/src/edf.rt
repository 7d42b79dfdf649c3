// Earliest deadline first.
ghost use Rattle.std.specs.Prelude.{◌≡◌, ℕ, ◌+◌, ◌<◌, ◌≤◌, MatchOption};
ghost use Rattle.coretests.specs.Edf.{demand, slack, EdfAccepts, edf_limit, least_slack};
ghost use Rattle.coretests.specs.Guard.{guard_unsound, guard_outside, guard_lighter};
ghost use Rattle.coretests.specs.EdfLaws.{accepts_lighter, least_slack_lighter, accepts_front};
ghost use Rattle.std.proofs.Common.{rules};

use crate::core_test::CoreTest;
use crate::entry::Entry;
use crate::sound_list::SoundList;

impl SoundList<'_> {
    // The demand at t, unless it is above t.
    #[tactic(auto, using(crate::specs::Soundness::in_range_at, crate::proofs::EdfSteps::demand_next))]
    fn demand_within(&self, t: u32) -> Option<u32>
        ensures { MatchOption result (t < demand self.now.entries.now t) (λ due. (due ≡ demand self.now.entries.now t) × (due ≤ t)) }
    {
        let mut left = u64::from(t);
        for e in self.entries {
            left = left.checked_sub(e.work(e.deadline, t))?;
        }
        Some(t - left as u32)
    }

    // What the demand leaves of t, and 0 where it is above t.
    fn slack(&self, t: u32) -> u32
        ensures { result ≡ slack self.now.entries.now t }
    {
        self.demand_within(t).map_or(0, |due| t - due)
    }

    // A moment up to `top` after which, up to `top`, no slack is below `least`.
    // Where the work of one span is less than the span, span × demand(t) is at most work × t + lead, which grows more slowly than span × t.
    #[tactic(auto, using(crate::specs::Soundness::in_range_at))]
    fn last_tight(&self, least: u32, top: u32) -> u32
        ensures within { result ≤ top }
        ensures past { (s : ℕ) → result < s → s ≤ top → least + demand self.now.entries.now s ≤ s }
    {
        // With `u64::from` in place of `as` the goals of the products below stayed open.
        let span = self.span as u64;
        let mut work = 0;
        let mut lead = 0;
        for x in self.entries {
            let share = x.load as u64 * (span / x.period as u64);
            work += share;
            if work >= span {
                return top;
            }
            lead += share * (x.period - x.deadline) as u64;
        }
        ((lead + least as u64 * span) / (span - work)).min(top as u64) as u32
    }
}

// The test by demand: what is due by t must fit before t, at every t.
#[derive(Clone, Copy)]
pub struct Edf;

impl CoreTest for Edf {
    ghost accepts = { λ _ xs. EdfAccepts xs };

    ghost limit = { λ _ xs d. edf_limit xs d };

    ghost unsound = { Prim.search rules };

    ghost unsound_limit = { λ s xs d h. guard_unsound xs d (least_slack xs d) h };

    ghost outside = { λ s xs d h. guard_outside xs d (least_slack xs d) h };

    ghost lighter = { λ s xs ys e m. accepts_lighter xs ys e m };

    ghost longer = { λ s xs ys d e. guard_lighter xs ys d (least_slack xs d) (least_slack ys d) e (least_slack_lighter xs ys d e) };

    ghost fewer = { λ s xs x m. accepts_front xs x m };

    #[tactic(auto, using(crate::specs::Soundness::in_range_at))]
    fn holds(&self, list: &[Entry]) -> bool {
        let Some(list) = SoundList::new(list) else {
            return false;
        };
        // After one span the demand repeats, so the moments up to the span speak for all.
        let mut t = list.last_tight(0, list.span);
        'moments: loop {
            let mut due = 0;
            for e in list.entries {
                due += e.work(e.deadline, t);
                if due > t as u64 {
                    break 'moments false;
                }
            }
            if due == 0 {
                break true;
            }
            // No more is due at any moment from `due` to t, so all of them have room.
            t = due as u32 - 1;
        }
    }

    #[tactic(auto, using(crate::specs::Guard::guard_closed, crate::proofs::EdfSteps::limit_none, crate::proofs::EdfSteps::limit_from, crate::proofs::EdfSteps::slack_turn))]
    fn longest(&self, list: &[Entry], d: u32) -> Option<u32> {
        let Some(list) = SoundList::asked(list, d) else {
            return Some(0);
        };
        let first = list.entries.first()?.deadline;
        let last = d - 1;
        if last < first {
            return None;
        }
        let mut best = list.slack(first);
        let mut t = list.last_tight(best, last);
        while best > 0 && t >= first {
            let slack = list.slack(t);
            best = best.min(slack);
            // Every moment from `t - slack + best` to t has a slack of `best` or more.
            t = (t - slack + best).saturating_sub(1);
        }
        Some(best)
    }
}
