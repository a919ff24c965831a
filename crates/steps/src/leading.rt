// Leading with the best log that was promised, and proposing entries.
ghost use Rattle.steps.specs.Heads.{has_place, led_head};
ghost use Rattle.steps.specs.Memory.{copied, fits_best, fits_more, led_in, only_done, proposed_in};
ghost use Rattle.std.specs.Prelude.{◌≡◌, slice_set};

use crate::facts::lay;
use crate::head::Head;
use crate::refusal::Refusal;
use entries::LOG;
use entry::Entry;
use quorum::is_most;

// Whether an entry has a place behind `len` others: the last place is for a close, and a close names a council.
fn has_place(len: u16, entry: Entry) -> bool
    ensures { result ≡ has_place len entry }
{
    match entry {
        Entry::Call(_) => len < LOG - 1,
        Entry::Close { members } => len < LOG && members > 0,
    }
}

impl Head {
    // Whether the station's entries are in a log, and those promised to it are in the best one and fit the log.
    fn fits_best(self, places: usize, best: usize) -> bool
        ensures { result ≡ fits_best self places best }
    {
        let len = usize::from(self.best);
        self.fits_log(places) && len <= best && len <= places
    }

    // Whether the station's entries are in a log that has room for as many as there can be.
    fn fits_more(self, places: usize) -> bool
        ensures { result ≡ fits_more self places }
    {
        self.fits_log(places) && places >= usize::from(LOG)
    }

    // The station leads the ballot that it asked for, with the best log.
    fn led(self) -> Head
        ensures { result ≡ led_head self }
    {
        Head {
            promised: self.asking,
            ballot: self.asking,
            len: self.best,
            asking: 0,
            leading: self.asking,
            heard: 0,
            had: 0,
            best: 0,
            tally: self.tally.note(self.asking, self.me, self.best),
            ..self
        }
    }

    // Leads the ballot that most promised: the best log of theirs is its own from now on.
    pub fn lead(self, best: &[Entry], log: &mut [Entry]) -> Result<Head, Refusal>
        ensures head { result ≡ led_in best.now log.old self }
        ensures log { log.new ≡ only_done result (copied self.best best.now log.old) log.old }
    {
        if !self.fits_best(log.len(), best.len()) {
            return Err(Refusal::Memory);
        }
        self.in_council()?;
        if self.asking == 0 || self.promised != self.asking || !is_most(self.members, self.heard) {
            return Err(Refusal::NotPromised);
        }
        let entries = &best[..usize::from(self.best)];
        if !self.keeps_sure(0, entries, log) {
            return Err(Refusal::NotPromised);
        }
        lay(0, entries, log);
        Ok(self.led())
    }

    // Proposes an entry in the ballot that it leads.
    pub fn propose(self, entry: Entry, log: &mut [Entry]) -> Result<Head, Refusal>
        ensures head { result ≡ proposed_in entry log.old self }
        ensures log { log.new ≡ only_done result (slice_set log.old self.len entry) log.old }
    {
        if !self.fits_more(log.len()) {
            return Err(Refusal::Memory);
        }
        self.in_council()?;
        if self.leading == 0 || self.promised != self.leading {
            return Err(Refusal::NotLeading);
        }
        if self.ends_closed(log) || !has_place(self.len, entry) {
            return Err(Refusal::LogFull);
        }
        log[usize::from(self.len)] = entry;
        let len = self.len + 1;
        let tally = self.tally.note(self.leading, self.me, len);
        Ok(Head { len, tally, ..self })
    }
}
