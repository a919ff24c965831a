// What several steps look at: the head, and the memory that is lent to it.
ghost use Rattle.std.specs.Prelude.{◌≡◌, ◌+◌, ◌≤◌, if◌then◌else◌, length, Ok, Err, ◌==◌, slice_index_or};
ghost use Rattle.council.specs.Log.{is_close};
ghost use Rattle.entries.specs.Entries.{laid};
ghost use Rattle.entry.specs.declared.entry.Entry.TheVariants.{Close};
ghost use Rattle.steps.specs.Heads.{ends_closed, last_of, member};
ghost use Rattle.steps.specs.Memory.{fits_log};
ghost use Rattle.steps.specs.declared.refusal.Refusal.TheVariants.{NoMember, OtherTerm};

use crate::head::Head;
use crate::refusal::Refusal;
use entry::Entry;
use quorum::is_member;

// The entry at a place of a log; behind its end, as a close to nobody: that is how the rules compare logs.
pub fn entry_at(log: &[Entry], place: usize) -> Entry
    ensures { result ≡ slice_index_or log.now place (Close 0) }
{
    log.get(place)
        .copied()
        .unwrap_or(Entry::Close { members: 0 })
}

// Whether an entry is a close.
pub fn is_close(entry: Entry) -> bool
    ensures { result ≡ is_close entry }
{
    matches!(entry, Entry::Close { .. })
}

// Lays entries into a log from a place on.
pub fn lay(place: usize, entries: &[Entry], log: &mut [Entry])
    requires { place + length entries.now ≤ length log.old }
    ensures { log.new ≡ laid place entries.now log.old }
{
    log[place..place + entries.len()].copy_from_slice(entries);
}

// The ballot that is asked for or led, if it is this one, or none: 0.
pub fn only(ballot: u32, held: u32) -> u32
    ensures { result ≡ (if held == ballot then held else 0) }
{
    if held == ballot { held } else { 0 }
}

impl Head {
    // Refuses a message of another term.
    pub fn in_term(self, term: u16) -> Result<(), Refusal>
        ensures { result ≡ (if term == self.term then Ok tt else Err OtherTerm) }
    {
        if term == self.term {
            Ok(())
        } else {
            Err(Refusal::OtherTerm)
        }
    }

    // Refuses whoever is no member of its council.
    pub fn in_council(self) -> Result<(), Refusal>
        ensures { result ≡ (if member self then Ok tt else Err NoMember) }
    {
        if is_member(self.members, self.me) {
            Ok(())
        } else {
            Err(Refusal::NoMember)
        }
    }

    // Whether a log of so many places has the station's entries.
    pub fn fits_log(self, places: usize) -> bool
        ensures { result ≡ fits_log self places }
    {
        self.sure <= self.len && usize::from(self.len) <= places
    }

    // The last entry of the station's log.
    pub fn last_of(self, log: &[Entry]) -> Entry
        ensures { result ≡ last_of self.len log.now }
    {
        entry_at(log, usize::from(self.len.saturating_sub(1)))
    }

    // Whether the station's log ends with a close.
    pub fn ends_closed(self, log: &[Entry]) -> bool
        ensures { result ≡ ends_closed self.len log.now }
    {
        self.len != 0 && is_close(self.last_of(log))
    }
}
