use crate::entry::Entry;
use span::Periodic;

impl Periodic for Entry {
    ghost period_of = { λ e. e.period };

    fn period(&self) -> u32 {
        self.period
    }
}
