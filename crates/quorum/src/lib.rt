// Quorums: sets of stations as bits, and what each member said it took.
#![tactic(auto)]

mod sets;
mod tally;

pub use sets::{insert, is_member, is_most};
pub use tally::Tally;
