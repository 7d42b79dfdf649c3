use crate::proposal::Proposal;
use span::Periodic;

// A proposed task has a period, be it in range or not.
impl Periodic for Proposal<'_> {
    ghost period_of = { λ p. p.period };

    fn period(&self) -> u32 {
        self.period
    }
}
