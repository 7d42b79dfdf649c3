// The span of a list of periods: their least common multiple.
#![tactic(auto)]

ghost use Rattle.std.specs.Prelude.{◌≡◌, ℕ, ◌<◌, ◌≤◌, map, MatchOption};
ghost use Rattle.std.specs.Int.{IsGcd};
ghost use Rattle.span.specs.Spans.{lcm_of, SpanWithin};

// The longest span that is answered.
pub const MAX_SPAN: u32 = 1_000_000;

// What comes back after a period: a task, an entry, or the period alone.
pub trait Periodic {
    ghost period_of: { Self → ℕ };

    fn period(&self) -> u32
        ensures { result ≡ period_of self.now };
}

impl Periodic for u32 {
    ghost period_of = { λ n. n };

    fn period(&self) -> u32 {
        *self
    }
}

// The greatest common divisor, by Euclid's algorithm.
fn gcd(a: u64, b: u64) -> u64
    ensures { IsGcd a b result }
{
    let mut x = a;
    let mut y = b;
    while y != 0 {
        let left = x % y;
        x = y;
        y = left;
    }
    x
}

// The least common multiple of a span and one more period, unless it is longer than the longest.
fn join(span: u32, period: u32) -> Option<u32>
    requires { (0 < span) × (0 < period) }
    ensures { MatchOption result (1000000 < lcm_of span period) (λ m. (m ≡ lcm_of span period) × (m ≤ 1000000)) }
{
    let a = u64::from(span);
    let b = u64::from(period);
    // In 64 bits the product of two numbers of 32 bits does not wrap.
    let joined = a / gcd(a, b) * b;
    u32::try_from(joined).ok().filter(|m| *m <= MAX_SPAN)
}

// The span of the periods of the items, unless one of them is 0 or the span is longer than the longest.
pub fn span_of<T: Periodic>(items: &[T]) -> Option<u32>
    ensures { SpanWithin (map T.Periodic.period_of items.now) result }
{
    let mut span = 1;
    for item in items {
        let period = item.period();
        if period == 0 {
            return None;
        }
        span = join(span, period)?;
    }
    Some(span)
}

#[cfg(test)]
mod tests {
    use super::*;

    #[test]
    fn spans(rt: HostRuntime) {
        assert_eq!(rt; span_of::<u32>(&[]), Some(1));
        assert_eq!(rt; span_of(&[2, 3]), Some(6));
        assert_eq!(rt; span_of(&[1500, 6000, 1500, 1500]), Some(6000));
        assert_eq!(rt; span_of(&[MAX_SPAN]), Some(MAX_SPAN));
    }

    #[test]
    fn refusals(rt: HostRuntime) {
        assert_eq!(rt; span_of(&[0]), None);
        assert_eq!(rt; span_of(&[1_000_000, 999_999]), None);
        assert_eq!(rt; join(MAX_SPAN, 3), None);
    }
}
