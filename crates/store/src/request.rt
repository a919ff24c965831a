// A client's request, and what doing it does to a store in lent memory.
ghost use Rattle.std.specs.Prelude.{◌≡◌};
ghost use Rattle.store.specs.Store.{applied, outcome, played, totalled};
ghost use Rattle.store.specs.Tables.{SameLoans, held, held_mut};

use crate::ask::Ask;
use crate::refusal::Refusal;
use crate::tables::{Tables, TablesMut};

// The number-th request of a client.
#[derive(Clone, Copy, PartialEq, Eq, Debug)]
pub struct Request {
    pub client: u8,
    pub number: u32,
    pub ask: Ask,
}

impl Request {
    // The word that doing it now gets, or why it is refused.
    pub fn outcome(self, store: Tables<'_>) -> Result<u32, Refusal>
        ensures { result ≡ outcome self (held store.entry) }
    {
        let store = store.whole().ok_or(Refusal::Tables)?.tables;
        if !self.ask.names_shelf() {
            return Err(Refusal::Key);
        }
        let last = store.lasts[usize::from(self.client)];
        if last.checked_add(1) != Some(self.number) {
            return Err(Refusal::NotNext);
        }
        Ok(self.ask.word(store.shelves[usize::from(self.ask.key())]))
    }

    // Does it: its shelf, its client's last and word. Refused, it changes nothing.
    pub fn apply(self, store: &mut TablesMut<'_>) -> Result<u32, Refusal>
        ensures word { result ≡ outcome self (held_mut store.old) }
        ensures store { held_mut store.new ≡ applied self (held_mut store.old) }
        ensures loans { SameLoans store.old store.new }
    {
        let word = self.outcome(store.as_tables())?;
        let key = usize::from(self.ask.key());
        let client = usize::from(self.client);
        store.shelves[key] = self.ask.leaves(store.shelves[key]);
        store.lasts[client] = self.number;
        store.words[client] = word;
        Ok(word)
    }
}

// Does requests one after the other, passing over those that are refused: how many were done.
// Slices that are no store are refused, and nothing changes.
pub fn apply_all(requests: &[Request], store: &mut TablesMut<'_>) -> Result<usize, Refusal>
    ensures count { result ≡ totalled (held_mut store.old) requests.now }
    ensures store { held_mut store.new ≡ played (held_mut store.old) requests.now }
    ensures loans { SameLoans store.old store.new }
{
    if !store.is_whole() {
        return Err(Refusal::Tables);
    }
    let mut done = 0;
    for request in requests {
        if request.apply(store).is_ok() {
            done += 1;
        }
    }
    Ok(done)
}
