// A task that is proposed to a table. The struct alone: specs/Stored names it.
pub(crate) mod checks;
pub mod periods;

// The values of a task as a caller has them: any numbers, and any count of blocks and points.
#[derive(Clone, Copy)]
pub struct Proposal<'a> {
    pub id: u32,
    pub period: u32,
    pub deadline: u32,
    pub blocks: &'a [u32],
    pub points: &'a [u32],
}
