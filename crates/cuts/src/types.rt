use tasks::MAX_POINTS;

// Cuts of one task: a flag for each point that a task may have, and what the cuts cost.
#[derive(Clone, Copy, Default)]
pub struct Cuts {
    // its bound is no ghost field, since specs/Dynamic makes cuts of any cost
    pub cost: u32,
    pub flags: [bool; MAX_POINTS],
}
