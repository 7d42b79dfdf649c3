// Core tests: whether a list of entries may share a core, and how long a region of the next task may be.
#![tactic(auto)]

pub mod cap;
pub mod core_test;
pub mod edf;
pub mod edf_pile;
pub mod entry;
pub mod fixed_priority;
pub mod handover;
pub mod meaning;
mod sound_list;

pub use cap::Cap;
pub use core_test::CoreTest;
pub use edf::Edf;
pub use edf_pile::EdfPile;
pub use entry::Entry;
pub use fixed_priority::FixedPriority;
pub use handover::Handover;
