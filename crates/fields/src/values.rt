// What a wanted line holds. The struct alone: specs/ names it.
use bounded::Bounded;

pub mod propose;
pub mod read;

// How many numbers of a list are kept. A task has at most 16 blocks and fewer points, so a
// seventeenth number already shows that there are too many; what stands after it changes nothing.
pub const KEPT: usize = 17;

// The numbers of a line `(task ..)`; of each of its lists the first, at most `KEPT`.
// It is no `Task`, which is in range: these numbers may lie anywhere.
#[derive(Clone, Copy)]
pub struct TaskLine {
    pub id: u32,
    pub period: u32,
    pub deadline: u32,
    pub blocks: Bounded<u32, KEPT>,
    pub points: Bounded<u32, KEPT>,
}
