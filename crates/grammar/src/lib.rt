// The grammar of a sheet's lines: its characters, its forms, and what a line that is not lawful is refused for.
#![tactic(auto)]

pub mod kind;
pub mod outcomes;
