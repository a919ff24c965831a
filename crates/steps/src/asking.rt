// Asking for a ballot, promising one, and hearing promises.
ghost use Rattle.std.specs.Prelude.{◌≡◌, ◌≤◌, not, ◌||◌, length, ◌==◌};
ghost use Rattle.steps.specs.Heads.{ask_head, counts_from, counts_itself, gave_head, give_head, heard_head, is_better};
ghost use Rattle.steps.specs.Memory.{best_given, best_heard, fits_copy, fits_heard, given_in, heard_in, only_done};

use crate::facts::{lay, only};
use crate::head::Head;
use crate::refusal::Refusal;
use entry::Entry;
use quorum::{insert, is_member};

// Whether so many entries that come fit the best log, and a head.
fn fits_heard(count: usize, room: usize) -> bool
    ensures { result ≡ fits_heard count room }
{
    count <= room && count <= usize::from(u16::MAX)
}

impl Head {
    // Asks for a ballot of its own, above what was promised.
    pub fn ask(self, ballot: u32) -> Result<Head, Refusal>
        ensures { result ≡ ask_head ballot self }
    {
        self.in_council()?;
        if ballot % 16 != u32::from(self.me) || ballot <= self.promised {
            return Err(Refusal::NotOwn);
        }
        Ok(Head {
            promised: ballot,
            asking: ballot,
            leading: 0,
            heard: 0,
            had: 0,
            best: 0,
            ..self
        })
    }

    // Whether a log of so many entries, last taken in a ballot, is better than the best so far.
    fn is_better(self, had: u32, len: u16) -> bool
        ensures { result ≡ is_better had len self }
    {
        self.heard == 0 || (self.had, self.best) < (had, len)
    }

    // A promise, counted or not.
    fn heard_from(self, counts: bool, from: u8, had: u32, len: u16) -> Head
        ensures { result ≡ heard_head counts from had len self }
    {
        if !counts {
            return self;
        }
        let heard = insert(self.heard, from);
        if self.is_better(had, len) {
            Head {
                heard,
                had,
                best: len,
                ..self
            }
        } else {
            Head { heard, ..self }
        }
    }

    // Takes part in no lower ballot any more, and ends asking for and leading others.
    pub(crate) fn gave(self, ballot: u32) -> Head
        ensures { result ≡ gave_head ballot self }
    {
        Head {
            promised: ballot,
            asking: only(ballot, self.asking),
            leading: only(ballot, self.leading),
            ..self
        }
    }

    // Whether its own promise counts: it asks for this ballot, and didn't promise it yet.
    fn counts_itself(self, ballot: u32) -> bool
        ensures { result ≡ counts_itself ballot self }
    {
        self.asking == ballot && !is_member(self.heard, self.me)
    }

    // Whether another's promise counts: a member's, once.
    fn counts_from(self, from: u8) -> bool
        ensures { result ≡ counts_from from self }
    {
        is_member(self.members, from) && !is_member(self.heard, from)
    }

    // Whether the station's entries are in a log, and fit another.
    fn fits_copy(self, places: usize, room: usize) -> bool
        ensures { result ≡ fits_copy self places room }
    {
        self.fits_log(places) && usize::from(self.len) <= room
    }

    // Copies its log over the best one, if its own promise counts and its log is better.
    fn keep_own(self, ballot: u32, log: &[Entry], best: &mut [Entry])
        requires { (self.len ≤ length log.now) × (self.len ≤ length best.old) }
        ensures { best.new ≡ best_given ballot log.now best.old self }
    {
        if self.counts_itself(ballot) && self.is_better(self.ballot, self.len) {
            lay(0, &log[..usize::from(self.len)], best);
        }
    }

    // The head after a promise.
    fn give(self, term: u16, ballot: u32) -> Result<Head, Refusal>
        ensures { result ≡ give_head term ballot self }
    {
        self.in_term(term)?;
        self.in_council()?;
        if ballot < self.promised || ballot <= self.ballot {
            return Err(Refusal::BelowPromise);
        }
        let counts = self.counts_itself(ballot);
        let next = self.gave(ballot);
        Ok(next.heard_from(counts, self.me, self.ballot, self.len))
    }

    // Promises a ballot. If the station asks for it, its own promise counts at once.
    pub fn promise(
        self,
        term: u16,
        ballot: u32,
        log: &[Entry],
        best: &mut [Entry],
    ) -> Result<Head, Refusal>
        ensures head { result ≡ given_in term ballot log.now best.old self }
        ensures best { best.new ≡ only_done result (best_given ballot log.now best.old self) best.old }
    {
        if !self.fits_copy(log.len(), best.len()) {
            return Err(Refusal::Memory);
        }
        let next = self.give(term, ballot)?;
        self.keep_own(ballot, log, best);
        Ok(next)
    }

    // Whether it asks for a ballot, and promised no higher one since.
    fn awaits(self, ballot: u32) -> bool
        ensures { result ≡ not (ballot == 0 || (not (ballot == self.asking) || not (ballot == self.promised))) }
    {
        ballot != 0 && ballot == self.asking && ballot == self.promised
    }

    // Hears a station's promise: the ballot of its log, and the log.
    pub fn hear(
        self,
        term: u16,
        ballot: u32,
        from: u8,
        had: u32,
        entries: &[Entry],
        best: &mut [Entry],
    ) -> Result<Head, Refusal>
        ensures head { result ≡ heard_in term ballot from had entries.now best.old self }
        ensures best { best.new ≡ only_done result (best_heard from had entries.now best.old self) best.old }
    {
        if !fits_heard(entries.len(), best.len()) {
            return Err(Refusal::Memory);
        }
        self.in_term(term)?;
        if !self.awaits(ballot) {
            return Err(Refusal::NotPromised);
        }
        let len = entries.len() as u16;
        let counts = self.counts_from(from);
        if counts && self.is_better(had, len) {
            lay(0, entries, best);
        }
        Ok(self.heard_from(counts, from, had, len))
    }
}
