// Reads the lines of a sheet: tokens that borrow it, and lawful lines.
#![tactic(auto)]

pub mod reader;

pub use reader::lines::{MAX_DIGITS, check_number};
pub use reader::{Line, Reader, Token, TokenAt};
