// A plan as text, written into a buffer that the caller lends.
#![tactic(auto)]

mod plan_text;

pub use plan_text::{MAX_TEXT, write_plan};
