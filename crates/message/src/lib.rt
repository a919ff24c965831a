// Messages between stations, as bytes.
#![tactic(auto)]

mod head;
mod heads;
mod judging;
mod loading;

pub use head::Message;
pub use judging::judge;
pub use loading::{Unread, read};
