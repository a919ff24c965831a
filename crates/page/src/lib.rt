// A store as bytes: a page.
#![tactic(auto)]

mod fill;
mod judge;
mod rows;

pub use fill::{load_page, read_page};
pub use judge::judge_page;
pub use rows::{Client, Row, Shelf};
