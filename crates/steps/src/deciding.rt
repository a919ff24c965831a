// Deciding entries that most took, doing them on the store, and answering from it.
ghost use Rattle.std.specs.Prelude.{◌≡◌, ℕ, ◌<◌, Ok, Err, ◌==◌};
ghost use Rattle.council.specs.Log.{requests_in};
ghost use Rattle.steps.specs.Calls.{acted, answered, decided_in, live_after};
ghost use Rattle.steps.specs.Heads.{decide_head, sure_head};
ghost use Rattle.steps.specs.declared.refusal.Refusal.TheVariants.{NotTaken};
ghost use Rattle.store.specs.Store.{played};
ghost use Rattle.store.specs.Tables.{SameLoans, held, held_mut};

use crate::head::Head;
use crate::refusal::Refusal;
use entry::Entry;
use store::{Tables, TablesMut};

// Does one entry on a store: a request that is refused changes nothing, nor does a close.
fn act(entry: Entry, store: &mut TablesMut<'_>)
    ensures store { held_mut store.new ≡ acted entry (held_mut store.old) }
    ensures loans { SameLoans store.old store.new }
{
    if let Entry::Call(request) = entry {
        let _ = request.apply(store);
    }
}

// Does the requests of entries on a store, one after the other.
pub fn play(entries: &[Entry], store: &mut TablesMut<'_>)
    ensures store { held_mut store.new ≡ played (held_mut store.old) (requests_in entries.now) }
    ensures loans { SameLoans store.old store.new }
{
    for entry in entries {
        act(*entry, store);
    }
}

// The word for a client's last request.
pub fn answer(client: u8, number: u32, store: Tables<'_>) -> Result<u32, Refusal>
    ensures { result ≡ answered client number (held store.entry) }
{
    let place = usize::from(client);
    let (Some(last), Some(word)) = (store.lasts.get(place), store.words.get(place)) else {
        return Err(Refusal::Memory);
    };
    if number != 0 && *last == number {
        Ok(*word)
    } else {
        Err(Refusal::NotLast)
    }
}

impl Head {
    // Whether the counts are for the ballot of the station's log.
    fn counts_log(self) -> bool
        ensures { result ≡ (self.tally.ballot == self.ballot) }
    {
        self.tally.ballot == self.ballot
    }

    // Decides the first entries, which most took, and does on the store those that weren't sure before.
    // Refused, it changes nothing.
    pub fn decide(self, k: u16, log: &[Entry], store: &mut TablesMut<'_>) -> Result<Head, Refusal>
        ensures value { result ≡ decided_in k log.now (held_mut store.old) self }
        ensures store { held_mut store.new ≡ live_after result log.now self (held_mut store.old) }
        ensures loans { SameLoans store.old store.new }
    {
        if !self.fits_log(log.len()) || !store.is_whole() {
            return Err(Refusal::Memory);
        }
        if !self.counts_log() || !self.tally.most_took(self.members, k) || self.len < k {
            return Err(Refusal::NotTaken);
        }
        let sure = self.sure.max(k);
        let fresh = &log[usize::from(self.sure)..usize::from(sure)];
        play(fresh, store);
        Ok(Head { sure, ..self })
    }

    // The largest number of entries that may be decided. None is a number too: 0.
    pub fn largest(self) -> u16
        ensures most { 0 < result → decide_head result self ≡ Ok (sure_head result self) }
        ensures none { (k : ℕ) → result < k → decide_head k self ≡ Err NotTaken }
    {
        if !self.counts_log() {
            return 0;
        }
        self.tally.largest(self.members, self.len)
    }
}
