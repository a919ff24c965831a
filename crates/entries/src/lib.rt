// Entries one behind the other: from bytes into a log, and into bytes.
#![tactic(auto)]

mod reading;
mod writing;

pub use reading::{judge_entries, load_entries, read_entries};
pub use writing::{LOG, write_behind};
