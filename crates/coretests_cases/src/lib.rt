// Examples of the core tests, worked by hand. An entry is written (period, deadline, load).
#![tactic(auto)]

ghost use Rattle.std.specs.Prelude.{◌≡◌, true};
ghost use Rattle.coretests.specs.Edf.{EdfAccepts};

use coretests::{CoreTest, EdfPile, Entry};

// Whatever the pile, a list that it accepts is one that EDF accepts.
pub fn accepted_by_edf<P: EdfPile>(pile: &P, list: &[Entry]) -> bool
    ensures { result ≡ true → EdfAccepts list.now }
{
    pile.holds(list)
}

#[cfg(test)]
mod tests {
    use super::*;
    use coretests::{Cap, Edf, FixedPriority, Handover};

    fn entry(period: u32, deadline: u32, load: u32) -> Entry {
        Entry {
            period,
            deadline,
            load,
        }
    }

    // No deadline up to the largest, 3, is missed; at 6 the demand is 3 × 1 + 2 × 2 = 7.
    #[test]
    fn overrun_past_the_largest_deadline(rt: HostRuntime) {
        let list = [entry(2, 2, 1), entry(3, 3, 2)];
        assert!(rt; !Edf.holds(&list));
        assert!(rt; Edf.holds(&[entry(2, 2, 1), entry(3, 3, 1)]));
        assert_eq!(rt; Edf.longest(&list, 3), Some(1));
        assert_eq!(rt; Edf.longest(&list, 4), Some(0));
    }

    // The slack of (20, 4, 1) is 3 at 4 and grows from there to 23.
    #[test]
    fn limits_around_the_first_deadline(rt: HostRuntime) {
        let list = [entry(20, 4, 1)];
        assert_eq!(rt; Edf.longest(&[], 10), None);
        assert_eq!(rt; Edf.longest(&list, 4), None);
        assert_eq!(rt; Edf.longest(&list, 5), Some(3));
        assert_eq!(rt; Edf.longest(&list, 1_000_000), Some(3));
        // At 12 the demand of this list is 3 × 2 + 2 × 3, all of it.
        let full = [entry(4, 4, 2), entry(6, 6, 3)];
        assert_eq!(rt; Edf.longest(&full, 12), Some(1));
        assert_eq!(rt; Edf.longest(&full, 13), Some(0));
        assert!(rt; Edf.holds(&full));
    }

    // The second entry needs 3 + 2 × 2 by 6.
    #[test]
    fn fixed_priorities(rt: HostRuntime) {
        assert!(rt; !FixedPriority.holds(&[entry(4, 4, 2), entry(6, 6, 3)]));
        assert_eq!(rt;
            FixedPriority.longest(&[entry(4, 4, 2), entry(6, 6, 3)], 9),
            Some(0)
        );
        // Tolerances 4 - 1 and 10 - 3 - 1.
        let list = [entry(20, 4, 1), entry(10, 10, 3)];
        assert!(rt; FixedPriority.holds(&list));
        assert_eq!(rt; FixedPriority.longest(&list, 1), Some(3));
        assert_eq!(rt; FixedPriority.longest(&list, 0), Some(0));
        assert!(rt; FixedPriority.holds(&[]));
        assert_eq!(rt; FixedPriority.longest(&[], 7), None);
    }

    #[test]
    fn layers(rt: HostRuntime) {
        assert_eq!(rt; Cap::new(Edf, 5).longest(&[], 10), Some(5));
        assert_eq!(rt; Cap::new(Edf, 0).longest(&[], 10), Some(1));
        assert_eq!(rt; Cap::new(Edf, 1_000_001).longest(&[], 10), Some(1_000_000));
        // The slack at 9 is 9 - 1 without handover and 9 - 2 with one of 1 tick.
        let list = [entry(20, 9, 1)];
        assert_eq!(rt; Handover::new(Edf, 1).longest(&list, 10), Some(6));
        assert_eq!(rt;
            Cap::new(Handover::new(Edf, 1), 2).longest(&list, 10),
            Some(2)
        );
        assert_eq!(rt;
            Handover::new(Cap::new(Edf, 2), 1).longest(&list, 10),
            Some(1)
        );
        assert_eq!(rt; Handover::new(Edf, 1).longest(&[], 10), None);
        // A handover of 20_000 is one of 10_000: 30_000 - 10_000 - 10_000.
        assert_eq!(rt;
            Handover::new(Edf, 20_000).longest(&[entry(500_000, 30_000, 0)], 30_001),
            Some(10_000)
        );
    }

    // The raised list is unsound, so that its limit is 0, and not none as for an empty range.
    #[test]
    fn raised_past_the_greatest_load(rt: HostRuntime) {
        let heavy = [entry(1_000_000, 1_000_000, 1_000_000_000)];
        assert_eq!(rt; Edf.longest(&heavy, 10), None);
        assert_eq!(rt; Handover::new(Edf, 0).longest(&heavy, 10), None);
        assert_eq!(rt; Handover::new(Edf, 1).longest(&heavy, 10), Some(0));
        assert!(rt; !Handover::new(Edf, 1).holds(&heavy));
    }

    // Each list would hold if it were sound, and its limit at 3 would be none.
    #[test]
    fn unsound_lists(rt: HostRuntime) {
        assert_eq!(rt; Edf.longest(&[entry(10, 4, 0)], 3), None);
        assert_eq!(rt;
            Edf.longest(&[entry(10, 9, 0), entry(10, 4, 0)], 3),
            Some(0)
        );
        assert_eq!(rt; Edf.longest(&[entry(10, 4, 0); 24], 3), None);
        assert_eq!(rt; Edf.longest(&[entry(10, 4, 0); 25], 3), Some(0));
        assert_eq!(rt; Edf.longest(&[entry(0, 4, 0)], 3), Some(0));
        assert_eq!(rt; Edf.longest(&[entry(10, 11, 0)], 3), Some(0));
        // 101 × 9901 is 1_000_001.
        assert_eq!(rt;
            Edf.longest(&[entry(101, 4, 0), entry(9901, 4, 0)], 3),
            Some(0)
        );
        assert!(rt; !Edf.holds(&[entry(101, 4, 0), entry(9901, 4, 0)]));
        assert!(rt; !FixedPriority.holds(&[entry(10, 9, 0), entry(10, 4, 0)]));
        assert!(rt; !Cap::new(Edf, 5).holds(&[entry(10, 4, 0); 25]));
    }

    #[test]
    fn asked_deadlines_out_of_range(rt: HostRuntime) {
        assert_eq!(rt; Edf.longest(&[], 0), Some(0));
        assert_eq!(rt; Edf.longest(&[], 1_000_000), None);
        assert_eq!(rt; Edf.longest(&[], 1_000_001), Some(0));
        assert_eq!(rt; Cap::new(Edf, 5).longest(&[], 1_000_001), Some(0));
    }

    #[test]
    fn piles(rt: HostRuntime) {
        let list = [entry(20, 4, 1), entry(10, 10, 3)];
        assert!(rt; accepted_by_edf(&Edf, &list));
        assert!(rt; accepted_by_edf(&Cap::new(Handover::new(Edf, 1), 2), &list));
        // With 8 more ticks for each job the demand at 10 is 9 + 11.
        assert!(rt; !accepted_by_edf(&Handover::new(Cap::new(Edf, 2), 8), &list));
    }
}
