// The commands of a script, read from its lines.
#![tactic(auto)]

mod parse;

pub use parse::{Command, is_blank};
