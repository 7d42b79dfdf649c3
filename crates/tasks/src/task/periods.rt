use crate::task::Task;
use span::Periodic;

// Of a task of any values: only a table has its tasks in range.
impl Periodic for Task {
    ghost period_of = { λ t. t.period };

    fn period(&self) -> u32 {
        self.period
    }
}

#[cfg(test)]
mod tests {
    use crate::task::Task;
    use bounded::Bounded;
    use span::span_of;

    // A task of no block, which no table takes.
    fn with_period(period: u32) -> Task {
        Task {
            id: 0,
            period,
            deadline: 0,
            blocks: Bounded::new(0),
            points: Bounded::new(0),
        }
    }

    #[test]
    fn any_tasks_have_a_span(rt: HostRuntime) {
        assert_eq!(rt; span_of(&[with_period(12), with_period(18)]), Some(36));
        assert_eq!(rt; span_of(&[with_period(12), with_period(1_000_001)]), None);
    }
}
