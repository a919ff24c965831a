// Requests, and what they do to a store in lent memory.
#![tactic(auto)]

mod ask;
mod refusal;
mod request;
mod tables;

pub use ask::Ask;
pub use refusal::Refusal;
pub use request::{Request, apply_all};
pub use tables::{CLIENTS, SHELVES, Tables, TablesMut, WholeTables};
