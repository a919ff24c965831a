// A station's steps.
#![tactic(auto)]

mod asking;
mod councils;
mod deciding;
mod facts;
mod head;
mod leading;
mod refusal;
mod same;
mod taking;

pub use deciding::{answer, play};
pub use head::Head;
pub use refusal::Refusal;
