// What a rehearsal prints: answers, entries, stores and messages as text.
#![tactic(auto)]

mod answer;
mod entry_lines;
mod messages;
mod tables;

pub use answer::Answer;
pub use entry_lines::{EntriesText, EntryText, MembersText};
pub use messages::MessageText;
pub use tables::StoreText;
