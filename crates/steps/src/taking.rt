// Taking a part of a log, and what others say that they took.
ghost use Rattle.std.specs.Prelude.{◌≡◌, ◌+◌, ◌≤◌, length};
ghost use Rattle.entries.specs.Entries.{laid};
ghost use Rattle.steps.specs.Calls.{fits_part, taken_in};
ghost use Rattle.steps.specs.Heads.{count_head, joins, took_head};
ghost use Rattle.steps.specs.Memory.{only_done};

use crate::facts::lay;
use crate::head::Head;
use crate::refusal::Refusal;
use entries::LOG;
use entry::Entry;

impl Head {
    // Whether a log of so many places has room for `count` entries from a place on.
    fn fits_part(self, place: u16, count: usize, places: usize) -> bool
        ensures { result ≡ fits_part place count places self }
    {
        let end = usize::from(place).saturating_add(count);
        self.fits_log(places) && end <= usize::from(LOG) && end <= places
    }

    // Whether a part joins the log: of the same ballot it leaves no gap and shortens nothing,
    // of a higher one it begins within what is sure.
    fn joins(self, ballot: u32, place: u16, count: u16) -> bool
        requires { place + count ≤ 4096 }
        ensures { result ≡ joins ballot place count self }
    {
        if ballot == self.ballot {
            place <= self.len && self.len <= place + count
        } else {
            self.ballot < ballot && place <= self.sure
        }
    }

    // With a log of so many entries of a ballot: asking for and leading others ends, and its own count is noted.
    fn took(self, ballot: u32, count: u16) -> Head
        ensures { result ≡ took_head ballot count self }
    {
        let tally = self.tally.note(ballot, self.me, count);
        Head {
            ballot,
            len: count,
            tally,
            ..self.gave(ballot)
        }
    }

    // Takes a part of a log, from a place on. Refused, it leaves the log as it was.
    pub fn take(
        self,
        term: u16,
        ballot: u32,
        place: u16,
        entries: &[Entry],
        log: &mut [Entry],
    ) -> Result<Head, Refusal>
        ensures value { result ≡ taken_in term ballot place entries.now log.old self }
        ensures log { log.new ≡ only_done result (laid place entries.now log.old) log.old }
    {
        if !self.fits_part(place, entries.len(), log.len()) {
            return Err(Refusal::Memory);
        }
        self.in_term(term)?;
        self.in_council()?;
        let count = entries.len() as u16;
        if ballot < self.promised || !self.joins(ballot, place, count) {
            return Err(Refusal::NoJoin);
        }
        if !self.keeps_sure(place, entries, log) {
            return Err(Refusal::NoJoin);
        }
        lay(usize::from(place), entries, log);
        Ok(self.took(ballot, place + count))
    }

    // A station says that it took so many entries of a ballot.
    pub fn count(self, term: u16, ballot: u32, from: u8, count: u16) -> Result<Head, Refusal>
        ensures { result ≡ count_head term ballot from count self }
    {
        self.in_term(term)?;
        if ballot < self.tally.ballot {
            return Err(Refusal::NotTaken);
        }
        let tally = self.tally.note(ballot, from, count);
        Ok(Head { tally, ..self })
    }
}
