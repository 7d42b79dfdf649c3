// A task as a table holds it. The struct alone: specs/Stored names it.
use bounded::Bounded;

pub mod periods;

pub const MAX_ID: u32 = 9_999_999;

// The greatest period, block and cost of a point.
pub const MAX_TICKS: u32 = 1_000_000;

pub const MAX_BLOCKS: usize = 16;

pub const MAX_POINTS: usize = 15;

#[derive(Clone, Copy)]
pub struct Task {
    pub id: u32,
    // the least gap between two releases
    pub period: u32,
    // counted from the release
    pub deadline: u32,
    // the lengths of the blocks, in ticks
    pub blocks: Bounded<u32, MAX_BLOCKS>,
    // the cost of an interruption between two blocks, one for each gap
    pub points: Bounded<u32, MAX_POINTS>,
}
