// Entering a council, closing one, and what a stop leaves.
ghost use Rattle.steps.specs.Calls.{begun_in, closed_in, store_after};
ghost use Rattle.steps.specs.Heads.{entered_head, stopped_head};
ghost use Rattle.store.specs.Store.{whole};
ghost use Rattle.store.specs.Tables.{SameLoans, held, held_mut};
ghost use Rattle.std.specs.Prelude.{◌≡◌, true};

use crate::head::Head;
use crate::refusal::Refusal;
use entry::Entry;
use quorum::Tally;
use store::{Tables, TablesMut};

// Makes one store like another.
// Both `requires` stay: what a `&mut` beside a ghost field refers to can't be lent yet, and whole tables for `from` alone read no plainer.
fn copy_store(from: Tables<'_>, to: &mut TablesMut<'_>)
    requires from { whole (held from) ≡ true }
    requires to { whole (held_mut to.old) ≡ true }
    ensures store { held_mut to.new ≡ held from.entry }
    ensures loans { SameLoans to.old to.new }
{
    to.shelves.copy_from_slice(from.shelves);
    to.lasts.copy_from_slice(from.lasts);
    to.words.copy_from_slice(from.words);
}

impl Head {
    // In a council with nothing done in it yet.
    pub fn enter(me: u8, term: u16, members: u16, before: u32) -> Head
        ensures { result ≡ entered_head me term members before }
    {
        let tally = Tally::new(0);
        Head {
            me,
            term,
            members,
            before,
            promised: 0,
            ballot: 0,
            len: 0,
            sure: 0,
            asking: 0,
            leading: 0,
            heard: 0,
            had: 0,
            best: 0,
            tally,
        }
    }

    // After a stop: what was in memory only is gone, as if it had just entered.
    pub fn stop(self) -> Head
        ensures { result ≡ stopped_head self }
    {
        Head {
            promised: self.promised,
            ballot: self.ballot,
            len: self.len,
            sure: self.sure,
            ..Head::enter(self.me, self.term, self.members, self.before)
        }
    }

    // Closes the council, if all of its log is sure: the station enters the next one,
    // and the store before that is the one with all entries done. Refused, it changes nothing.
    pub fn close(
        self,
        log: &[Entry],
        base: &mut TablesMut<'_>,
        live: Tables<'_>,
    ) -> Result<Head, Refusal>
        ensures value { result ≡ closed_in log.now (held_mut base.old) (held live.entry) self }
        ensures base { held_mut base.new ≡ store_after result (held live.entry) (held_mut base.old) }
        ensures loans { SameLoans base.old base.new }
    {
        if !self.fits_log(log.len()) || !base.is_whole() || !live.is_whole() {
            return Err(Refusal::Memory);
        }
        if self.sure != self.len || self.len == 0 {
            return Err(Refusal::NotClosed);
        }
        let Entry::Close { members } = self.last_of(log) else {
            return Err(Refusal::NotClosed);
        };
        let before = self.before.checked_add(u32::from(self.len));
        let (Some(term), Some(before)) = (self.term.checked_add(1), before) else {
            return Err(Refusal::NotClosed);
        };
        copy_store(live, base);
        Ok(Head::enter(self.me, term, members, before))
    }

    // Enters a later council, with the store before it: both stores are that one. Refused, it changes nothing.
    pub fn begin(
        self,
        term: u16,
        members: u16,
        before: u32,
        page: Tables<'_>,
        base: &mut TablesMut<'_>,
        live: &mut TablesMut<'_>,
    ) -> Result<Head, Refusal>
        ensures value { result ≡ begun_in term members before (held page.entry) (held_mut base.old) (held_mut live.old) self }
        ensures base { held_mut base.new ≡ store_after result (held page.entry) (held_mut base.old) }
        ensures live { held_mut live.new ≡ store_after result (held page.entry) (held_mut live.old) }
        ensures base_loans { SameLoans base.old base.new }
        ensures live_loans { SameLoans live.old live.new }
    {
        if !page.is_whole() || !base.is_whole() || !live.is_whole() {
            return Err(Refusal::Memory);
        }
        if term <= self.term {
            return Err(Refusal::OtherTerm);
        }
        copy_store(page, base);
        copy_store(page, live);
        Ok(Head::enter(self.me, term, members, before))
    }
}
