// Plans: rows that give each task of a table its core and its cuts, and the entries that they make for the cores.
#![tactic(auto)]

pub mod cores;
pub mod placing;
pub mod types;

pub use cores::{is_idle, on_core};
pub use placing::{cost_of, place_all, placed};
pub use types::{Placed, Placings, Row};
