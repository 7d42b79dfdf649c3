// Tasks, tables of tasks, and every refusal of the product.
#![tactic(auto)]

pub mod proposal;
pub mod refusal;
pub mod table;
pub mod task;

pub use proposal::Proposal;
pub use proposal::checks::OutOfRange;
pub use refusal::Refusal;
pub use table::{Draft, MAX_CORES, MAX_TASKS, Sealed};
pub use task::{MAX_BLOCKS, MAX_POINTS, Task};
