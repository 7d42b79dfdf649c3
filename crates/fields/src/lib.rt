// The lines of a sheet that are wanted: whether the bytes of a line are one, and the numbers that it holds.
#![tactic(auto)]

pub mod values;

pub use values::TaskLine;
pub use values::read::{cores_of, task_of};
