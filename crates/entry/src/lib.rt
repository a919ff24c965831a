// Entries of a log, as bytes.
#![tactic(auto)]

mod entry;
mod members;
mod read;
mod write;

pub use entry::Entry;
pub use members::{Listing, list_members, read_members};
pub use read::read_entry;
pub use write::{entry_size, write_entry};
