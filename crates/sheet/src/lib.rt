// Reads the lines of a sheet into a draft.
#![tactic(auto)]

pub mod reading;

pub use reading::read_sheet;
