ghost use Rattle.std.specs.Prelude.{◌≡◌, true, false, MatchResult};
ghost use Rattle.tasks.specs.Tasks.{between, every, in_range, points_match};
ghost use Rattle.tasks.specs.Stored.{proposed, task_of};

use crate::proposal::Proposal;
use crate::task::{MAX_BLOCKS, MAX_ID, MAX_TICKS, Task};
use bounded::Bounded;

// Whether each of the numbers lies from `low` to `high`.
fn all_between(low: u32, high: u32, numbers: &[u32]) -> bool
    ensures { result ≡ every (between low high) numbers.now }
{
    numbers.iter().all(|n| (low..=high).contains(n))
}

impl Proposal<'_> {
    // 1 to 16 blocks, and exactly one point fewer.
    fn has_matching_points(&self) -> bool
        ensures { result ≡ points_match (proposed self.now) }
    {
        let blocks = self.blocks.len();
        (1..=MAX_BLOCKS).contains(&blocks) && self.points.len() == blocks - 1
    }

    // Whether every value is in its range.
    pub fn is_in_range(&self) -> bool
        ensures { result ≡ in_range (proposed self.now) }
    {
        (1..=MAX_ID).contains(&self.id)
            && (1..=MAX_TICKS).contains(&self.period)
            && (1..=self.period).contains(&self.deadline)
            && self.has_matching_points()
            && all_between(1, MAX_TICKS, self.blocks)
            && all_between(0, MAX_TICKS, self.points)
    }
}

// Some value of a proposal is out of its range.
#[derive(Clone, Copy, PartialEq, Eq, Debug)]
pub struct OutOfRange;

// The task as a table keeps it.
impl TryFrom<&Proposal<'_>> for Task {
    type Error = OutOfRange;

    ghost try_from_gives = { λ p r. MatchResult r (λ t. (task_of t ≡ proposed p.now) × (in_range (task_of t) ≡ true)) (λ _. in_range (proposed p.now) ≡ false) };

    fn try_from(proposal: &Proposal<'_>) -> Result<Task, OutOfRange> {
        if !proposal.is_in_range() {
            return Err(OutOfRange);
        }
        let mut blocks = Bounded::new(0);
        let _ = blocks.extend_from_slice(proposal.blocks);
        let mut points = Bounded::new(0);
        let _ = points.extend_from_slice(proposal.points);
        Ok(Task {
            id: proposal.id,
            period: proposal.period,
            deadline: proposal.deadline,
            blocks,
            points,
        })
    }
}
