// A script played from its first line to its last: text in, text out.
#![tactic(auto)]

mod reading;
mod rehearsal;

pub use reading::play_read;
pub use rehearsal::{only_requests_count, rehearse};
