// Texts, written into a buffer that the caller lends.
#![tactic(auto)]

mod lines;
mod tell;
mod text;

pub use lines::MAX_LINE;
pub use tell::{Tell, write};
pub use text::Text;
