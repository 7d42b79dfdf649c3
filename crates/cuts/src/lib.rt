// What cuts make of a task, and which cuts are chosen under a limit.
#![tactic(auto)]

pub mod best;
pub mod flags;
pub mod meaning;
pub mod regions;
pub mod types;

pub use best::best_cuts;
pub use flags::{cut_cost, has_cut_beyond, regions_within, total_blocks};
pub use regions::Regions;
pub use types::Cuts;
